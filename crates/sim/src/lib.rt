// A fresh machine, and cell reading (01, 'Queue and names', 'What a call gives back'; 02, A.2 and A.4).
#![tactic(auto)]

ghost use Rattle.std.specs.Prelude.{◌≡◌, IfOk, Err};
ghost use Rattle.answer.specs.Numbers.{told, gives};
ghost use Rattle.cell.specs.Cells.{unpacked};
ghost use Rattle.machine.specs.State.{of_size};
ghost use Rattle.machine.specs.Fresh as spec;
ghost use Rattle.machine.specs.Run as run;
ghost use Rattle.lent.specs.Parts.{machine_of};
ghost use Rattle.lent.specs.Given.{given, given_by};

use answer::{Answer, Error};
use cell::{Cell, fresh_cell, sound, unpack};
use fold::{of_size, valid_limits, valid_processes};
use lent::processes_of;
use machine::limits::{LARGEST_CORE, MOST_ENTRIES};
use machine::{Header, Outcome, Ring, Roster, Rules};
use offset::{Absolute, add, reduce};
use soundness::sound_header;

// A header with these rules, and everything else 0.
pub fn blank(rules: Rules) -> Header
    ensures { result ≡ spec.blank rules }
{
    Header {
        rules,
        ring: Ring { head: 0, length: 0 },
        steps: 0,
        names: Roster {
            held: 0,
            bytes: [0; 512],
            lengths: [0; 16],
        },
        counts: [0; 16],
        threads: [0; 16],
    }
}

// A refusal: nothing was written, and the header is the one given.
pub fn refuse(answer: Answer, h: Header) -> Outcome
    ensures { (result.answer ≡ answer) × (result.writes ≡ 0) × (result.steps ≡ 0) × (result.header ≡ h) }
{
    Outcome {
        answer,
        writes: 0,
        steps: 0,
        header: h,
    }
}

// A refusal of a fresh machine: a header of zeros.
fn no_machine(error: Error) -> Outcome
    ensures { (result.answer ≡ Err error) × (result.writes ≡ 0) × (result.steps ≡ 0) × (result.header ≡ spec.blank (of_size 0 0)) }
{
    refuse(Err(error), blank(of_size(0, 0)))
}

// A fresh machine: fresh cells, zeros in the queue memory, and its header. It tests what `soundness` tests of a header, but each for its own number.
pub fn fresh(rules: Rules, core: &mut [u64], queue: &mut [u64]) -> Outcome
    ensures { given (told result.answer) result.writes result.steps (machine_of core.new queue.new result.header)
        ≡ given_by (spec.fresh rules core.old queue.old) }
{
    let size = rules.size;
    if !((1 <= size) & (size <= LARGEST_CORE)) {
        return no_machine(Error::InvalidCoreSize);
    }
    let slots = queue.len();
    let limited = (1 <= slots) & (slots <= MOST_ENTRIES);
    let processes = valid_processes(rules.processes, slots);
    if (core.len() != size as usize) | !limited | !processes {
        return no_machine(Error::InvalidMemory);
    }
    if !valid_limits(rules) {
        return no_machine(Error::InvalidLimit);
    }
    core.fill(fresh_cell());
    queue.fill(0);
    Outcome {
        answer: Ok(()),
        writes: 0,
        steps: 0,
        header: blank(rules),
    }
}

// The cell at any number, reduced.
pub fn get(core: &[u64], queue: &[u64], h: Header, number: i32) -> Result<Cell, Error>
    ensures { (told result ≡ gives (run.read (machine_of core.now queue.now h) number).number 0)
        × IfOk result (λ c. c ≡ unpacked (run.read (machine_of core.now queue.now h) number).value) }
{
    if !sound_header(core, queue, h.rules, &h.names, &processes_of(h)) {
        return Err(Error::UnsoundRecord);
    }
    let place = add(Absolute(0), reduce(number, h.rules.size), h.rules.size);
    let at = place.0 as usize;
    let w = core[at];
    if !sound(w, h.rules.size) {
        return Err(Error::UnsoundRecord);
    }
    Ok(unpack(w))
}
