// A body placed in the core under a name, and a process started under a name (01, 'Load'; 02, A.4 and A.5).
#![tactic(auto)]

ghost use Rattle.std.specs.Prelude.{◌≡◌, cond, ◌≤◌, [], Err};
ghost use Rattle.answer.specs.declared.Error.TheVariants.{UnsoundRecord};
ghost use Rattle.answer.specs.Numbers.{told};
ghost use Rattle.machine.specs.Place as placing;
ghost use Rattle.machine.specs.Start as starting;
ghost use Rattle.machine.specs.Names.{slot, is_new};
ghost use Rattle.lent.specs.Parts.{named_of, parts, machine_of, register_if};
ghost use Rattle.lent.specs.Given.{given, given_by, writes_of};
ghost use Rattle.warrior.specs.Tested.{place_tested, start_tested};

use crate::body::place_body;
use answer::{Answer, Error};
use lent::{header_of, processes_of};
use machine::{Header, Outcome, Processes, Roster, Rules};
use metadata::called;
use names::{find, register};
use offset::Absolute;
use program::len;
use queue::start as start_process;
use sim::refuse;
use soundness::sound_header;
use warrior_checks::{place_refusal, start_refusal};

mod body;

// The slot of a name; one that is not held is registered in the next. That no more than 16 are held is what the checks before told.
fn slot_of(names: &mut Roster, processes: &mut Processes, name: &[u8]) -> u8
    requires { names.old.held ≤ 16 }
    ensures slot { result ≡ slot names.old name.now }
    ensures named { named_of names.new processes.new
        ≡ cond (is_new names.old name.now) (register_if (named_of names.old processes.old) name.now) (named_of names.old processes.old) }
{
    if let Some(i) = find(names, name) {
        return i as u8;
    }
    let next = names.held as u8;
    register(names, processes, name);
    next
}

// Places a body in the parts of a record whose header was tested before, and does not test it again; gives its writes. An empty name is Warrior0. The parts are lent one by one: of two `&mut` in a struct the check knows the lengths alone once the struct is gone.
pub fn place_parts(
    core: &mut [u64],
    rules: Rules,
    names: &mut Roster,
    processes: &mut Processes,
    name: &[u8],
    body: &[u8],
    place: u32,
) -> Result<u64, Error>
    ensures { given (told result) (writes_of result) 0 (parts core.new [] rules names.new processes.new)
        ≡ given_by (place_tested (parts core.old [] rules names.old processes.old) name.now body.now place) }
{
    place_refusal(rules.size, names, name, body, place)?;
    slot_of(names, processes, called(name));
    place_body(core, place as usize, body, rules.size);
    Ok(len(body) as u64)
}

// Starts a process in the parts of a record whose header was tested before, and does not test it again. An empty name is Warrior0.
pub fn start_parts(
    queue: &mut [u64],
    rules: Rules,
    names: &mut Roster,
    processes: &mut Processes,
    name: &[u8],
    place: u32,
) -> Answer
    ensures { given (told result) 0 0 (parts [] queue.new rules names.new processes.new)
        ≡ given_by (start_tested (parts [] queue.old rules names.old processes.old) name.now place) }
{
    start_refusal(rules, names, processes, name, place)?;
    let i = slot_of(names, processes, called(name));
    start_process(queue, processes, Absolute(place), i);
    Ok(())
}

// The refusal of a record whose header is unsound: it is as it was.
fn unsound(h: Header) -> Outcome
    ensures { (result.answer ≡ Err UnsoundRecord) × (result.writes ≡ 0) × (result.steps ≡ 0) × (result.header ≡ h) }
{
    refuse(Err(Error::UnsoundRecord), h)
}

// Places a body under a name and starts nothing; an empty name is Warrior0.
pub fn place(
    core: &mut [u64],
    queue: &[u64],
    h: Header,
    name: &[u8],
    body: &[u8],
    place: u32,
) -> Outcome
    ensures { given (told result.answer) result.writes result.steps (machine_of core.new queue.now result.header)
        ≡ given_by (placing.place (machine_of core.old queue.now h) name.now body.now place) }
{
    let rules = h.rules;
    let mut names = h.names;
    let mut processes = processes_of(h);
    if !sound_header(core, queue, rules, &names, &processes) {
        return unsound(h);
    }
    match place_parts(core, rules, &mut names, &mut processes, name, body, place) {
        Ok(writes) => Outcome {
            answer: Ok(()),
            writes,
            steps: 0,
            header: header_of(rules, names, processes),
        },
        Err(error) => refuse(Err(error), header_of(rules, names, processes)),
    }
}

// Starts a process under a name at a place of the core; an empty name is Warrior0.
pub fn start(core: &[u64], queue: &mut [u64], h: Header, name: &[u8], place: u32) -> Outcome
    ensures { given (told result.answer) result.writes result.steps (machine_of core.now queue.new result.header)
        ≡ given_by (starting.start (machine_of core.now queue.old h) name.now place) }
{
    let rules = h.rules;
    let mut names = h.names;
    let mut processes = processes_of(h);
    if !sound_header(core, queue, rules, &names, &processes) {
        return unsound(h);
    }
    let answer = start_parts(queue, rules, &mut names, &mut processes, name, place);
    Outcome {
        answer,
        writes: 0,
        steps: 0,
        header: header_of(rules, names, processes),
    }
}
