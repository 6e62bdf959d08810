// Loads every warrior of a match file in one call (02, A.1): its body is placed, and a process is started (A.5).
#![tactic(auto)]

ghost use Rattle.std.specs.Prelude.{◌≡◌, true, ◌≤◌};
ghost use Rattle.answer.specs.Numbers.{told};
ghost use Rattle.machine.specs.Soundness.{sound_header};
ghost use Rattle.lent.specs.Parts.{machine_of, parts};
ghost use Rattle.lent.specs.Given.{given, given_by};
ghost use Rattle.match_file.specs.Reading.{size_in};
ghost use Rattle.match_load.specs.Loading as spec;
ghost use Rattle.match_load.specs.Inner.Tested.{tested};

use answer::{Answer, Error};
use lent::{header_of, processes_of, sized};
use machine::limits::NO_ORIGIN;
use machine::{Header, Outcome, Processes, Roster, Rules};
use match_file::{read, warrior_in};
use metadata::Warrior;
use offset::{Absolute, Relative, add};
use soundness::sound_header;
use warrior::{place_parts, start_parts};

// What comes of loads: their outcome, and the number of the warrior at which they stopped, from 0; 0 where none was refused, as in 02 and for C.
#[derive(Clone, Copy)]
pub struct Loads {
    pub outcome: Outcome,
    pub warrior: usize,
}

// Loads that stopped: at a warrior, before the first or after the last.
fn stopped(answer: Answer, writes: u64, header: Header, warrior: usize) -> Loads
    ensures { (result.outcome.answer ≡ answer) × (result.outcome.writes ≡ writes) × (result.outcome.steps ≡ 0) × (result.outcome.header ≡ header) × (result.warrior ≡ warrior) }
{
    Loads {
        outcome: Outcome {
            answer,
            writes,
            steps: 0,
            header,
        },
        warrior,
    }
}

// The origin of a match file's warrior, 65,535 for none, meaning 0.
pub fn origin_of(origin: u16) -> u32
    ensures { result ≡ spec.origin_of origin }
{
    if origin == NO_ORIGIN {
        return 0;
    }
    origin as u32
}

// Places a warrior's body and starts its process, in the parts of a record whose header was tested; gives the answer, and the writes that stand.
fn place_and_start(
    core: &mut [u64],
    queue: &mut [u64],
    rules: Rules,
    names: &mut Roster,
    processes: &mut Processes,
    w: Warrior,
) -> (Answer, u64)
    ensures { given (told result.0) result.1 0 (parts core.new queue.new rules names.new processes.new)
        ≡ given_by (tested (parts core.old queue.old rules names.old processes.old) w.entry.name.now w.entry.body.now w.entry.origin w.entry.place) }
{
    let writes = match place_parts(core, rules, names, processes, w.name, w.body, w.place) {
        Ok(writes) => writes,
        Err(error) => return (Err(error), 0),
    };
    let at = add(Absolute(w.place), Relative(origin_of(w.origin)), rules.size);
    let answer = start_parts(queue, rules, names, processes, w.name, at.0);
    (answer, writes)
}

// Places and starts that many warriors of a file in a record whose header is sound, up to the first refused. Core and queue are lent one by one: of two `&mut` in a struct the check knows the lengths alone once the struct is gone.
fn load_all(core: &mut [u64], queue: &mut [u64], h: Header, file: &[u8], count: usize) -> Loads
    requires { (count ≤ 16) × (size_in file.now ≡ h.rules.size) × (sound_header (machine_of core.old queue.old h) ≡ true) }
    ensures { (given (told result.outcome.answer) result.outcome.writes result.outcome.steps (machine_of core.new queue.new result.outcome.header)
        ≡ given_by (spec.loads file.now 0 count (machine_of core.old queue.old h)).outcome)
        × (result.warrior ≡ (spec.loads file.now 0 count (machine_of core.old queue.old h)).warrior) }
{
    let rules = h.rules;
    let mut names = h.names;
    let mut processes = processes_of(h);
    // The check takes no array's length from a field's type.
    sized(
        &names.bytes,
        &names.lengths,
        &processes.counts,
        &processes.threads,
    );
    let mut writes: u64 = 0;
    // The number is a line's, from which its place in the file follows.
    for i in 0..count {
        let w = warrior_in(file, i as u8);
        let (answer, more) = place_and_start(core, queue, rules, &mut names, &mut processes, w);
        writes += more;
        if answer.is_err() {
            let header = header_of(rules, names, processes);
            return stopped(answer, writes, header, i);
        }
    }
    let header = header_of(rules, names, processes);
    stopped(Ok(()), writes, header, 0)
}

// Loads every warrior of a match file, one by one in file order: its body is placed and a process started, up to the first call that is refused. What was done before it stands, its own body too where its start is refused.
pub fn load_match(core: &mut [u64], queue: &mut [u64], h: Header, file: &[u8]) -> Loads
    ensures { (given (told result.outcome.answer) result.outcome.writes result.outcome.steps (machine_of core.new queue.new result.outcome.header)
        ≡ given_by (spec.load_match (machine_of core.old queue.old h) file.now).outcome)
        × (result.warrior ≡ (spec.load_match (machine_of core.old queue.old h) file.now).warrior) }
{
    let processes = processes_of(h);
    if !sound_header(core, queue, h.rules, &h.names, &processes) {
        return stopped(Err(Error::UnsoundRecord), 0, h, 0);
    }
    let contents = match read(file) {
        Ok(contents) => contents,
        Err(error) => return stopped(Err(error), 0, h, 0),
    };
    if contents.size != h.rules.size {
        return stopped(Err(Error::InvalidCoreSize), 0, h, 0);
    }
    load_all(core, queue, h, file, contents.warriors)
}
