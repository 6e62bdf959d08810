// Step and run, the header by value (01, 'One step').
#![tactic(auto)]

ghost use Rattle.std.specs.Prelude.{◌≡◌, Some};
ghost use Rattle.answer.specs.Numbers.{told};
ghost use Rattle.machine.specs.Step as one;
ghost use Rattle.machine.specs.Run as spec;
ghost use Rattle.lent.specs.Parts.{machine_of};
ghost use Rattle.lent.specs.Given.{given, given_by};

use lent::{header_of, processes_of};
use machine::{Header, Outcome};
use steps::run_parts;

// Steps while steps taken are below a ceiling, up to the first answer not 0. Written into both callers: called by them, it makes an outer step take 41 to 52 % more instructions.
#[inline(always)]
fn run_to(core: &mut [u64], queue: &mut [u64], h: Header, ceiling: u64) -> Outcome
    ensures { given (told result.answer) result.writes result.steps (machine_of core.new queue.new result.header)
        ≡ given_by (spec.run (Some ceiling) (machine_of core.old queue.old h)) }
{
    let names = h.names;
    let mut processes = processes_of(h);
    let ran = run_parts(core, queue, h.rules, &names, &mut processes, ceiling);
    Outcome {
        answer: ran.answer,
        writes: ran.writes,
        steps: ran.steps,
        header: header_of(h.rules, names, processes),
    }
}

// Steps while steps taken are below the ceiling, 10,000 where none is given, up to the first answer not 0.
pub fn run(core: &mut [u64], queue: &mut [u64], h: Header, ceiling: Option<u64>) -> Outcome
    ensures { given (told result.answer) result.writes result.steps (machine_of core.new queue.new result.header)
        ≡ given_by (spec.run ceiling (machine_of core.old queue.old h)) }
{
    run_to(core, queue, h, ceiling.unwrap_or(10000))
}

// Executes one instruction of the process at the front: a run with a ceiling of one more step.
pub fn step(core: &mut [u64], queue: &mut [u64], h: Header) -> Outcome
    ensures { given (told result.answer) result.writes result.steps (machine_of core.new queue.new result.header)
        ≡ given_by (one.step (machine_of core.old queue.old h)) }
{
    run_to(core, queue, h, h.steps as u64 + 1)
}
