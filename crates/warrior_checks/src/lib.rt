// Whether a body would be placed and a process started in a record whose header was tested, and if not, why (01, 'Load'; 02, A.4 and A.5): nothing is changed.
#![tactic(auto)]

ghost use Rattle.std.specs.Prelude.{◌≡◌, []};
ghost use Rattle.answer.specs.Numbers.{told};
ghost use Rattle.lent.specs.Parts.{parts};
ghost use Rattle.warrior_checks.specs.Refusal.{place_told, start_told, warrior_told};

use answer::{Answer, Error};
use machine::limits::{LAST_NUMBER, MOST_NAMES};
use machine::{Processes, Roster, Rules};
use metadata::{called, valid_name};
use names::find;
use program::{len, lowest_fault};

// The answer of the first check of M and a warrior that applies, the same for placing and for writing.
#[tactic(auto, unfolding(crate::specs::Refusal::warrior_told))]
pub fn warrior_refusal(size: u32, name: &[u8], body: &[u8], place: u32) -> Answer
    ensures { told result ≡ warrior_told size name.now body.now place }
{
    if (size as usize) < len(body) {
        return Err(Error::WarriorTooLong);
    }
    if let Some(fault) = lowest_fault(body) {
        return Err(Error::InvalidCode(fault));
    }
    if !valid_name(name) || size <= place {
        return Err(Error::InvalidNameOrPlace);
    }
    Ok(())
}

// The answer of the first check of placing that applies past the test of the header; an empty name is Warrior0. No process and no memory is looked at: a name that holds P entries is placed under.
pub fn place_refusal(size: u32, names: &Roster, name: &[u8], body: &[u8], place: u32) -> Answer
    ensures { told result ≡ place_told size names.now name.now body.now place }
{
    if names.held > MOST_NAMES {
        return Err(Error::UnsoundRecord);
    }
    warrior_refusal(size, name, body, place)?;
    if names.held == MOST_NAMES && find(names, called(name)).is_none() {
        return Err(Error::NoRoom);
    }
    Ok(())
}

// The answer of the first check of starting that applies past the test of the header; an empty name is Warrior0. No memory is looked at: the process limit counts a name's entries.
pub fn start_refusal(
    rules: Rules,
    names: &Roster,
    processes: &Processes,
    name: &[u8],
    place: u32,
) -> Answer
    ensures { told result ≡ start_told (parts [] [] rules names.now processes.now) name.now place }
{
    if names.held > MOST_NAMES {
        return Err(Error::UnsoundRecord);
    }
    if !valid_name(name) || rules.size <= place {
        return Err(Error::InvalidNameOrPlace);
    }
    match find(names, called(name)) {
        None if names.held == MOST_NAMES => Err(Error::NoRoom),
        Some(i) if processes.counts[i as usize] >= rules.processes => Err(Error::NoRoom),
        Some(i) if processes.threads[i as usize] == LAST_NUMBER => Err(Error::NumbersExhausted),
        _ => Ok(()),
    }
}
