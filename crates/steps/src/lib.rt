// Step and run on the lent parts of any record: the test of its header, then the run loop.
#![tactic(auto)]

ghost use Rattle.std.specs.Prelude.{◌≡◌, Some};
ghost use Rattle.answer.specs.Numbers.{told};
ghost use Rattle.machine.specs.Run as spec;
ghost use Rattle.lent.specs.Parts.{parts};
ghost use Rattle.lent.specs.Given.{given, given_by};

use crate::running::run_loop;
use crate::setting::Setting;
use answer::{Answer, Error};
use lent::sized;
use machine::{Processes, Roster, Rules};
use soundness::sound_header;

mod execute;
mod modifier;
mod opcode;
mod operand;
mod ring;
mod running;
mod scene;
mod setting;
mod stepping;

// What a run answers, with its writes and steps. Both stand beside a refusal too, so the answer is a field: a Result has no place for them.
#[derive(Clone, Copy)]
pub struct Ran {
    pub answer: Answer,
    pub writes: u64,
    pub steps: u64,
}

// Steps while steps taken are below the ceiling, up to the first answer not 0; an unsound header is refused. The parts are lent one by one, as to `warrior::place_parts`.
pub fn run_parts(
    core: &mut [u64],
    queue: &mut [u64],
    rules: Rules,
    names: &Roster,
    processes: &mut Processes,
    ceiling: u64,
) -> Ran
    ensures { given (told result.answer) result.writes result.steps (parts core.new queue.new rules names.now processes.new)
        ≡ given_by (spec.run (Some ceiling) (parts core.old queue.old rules names.now processes.old)) }
{
    if !sound_header(core, queue, rules, names, processes) {
        return Ran {
            answer: Err(Error::UnsoundRecord),
            writes: 0,
            steps: 0,
        };
    }
    sized(
        &names.bytes,
        &names.lengths,
        &processes.counts,
        &processes.threads,
    );
    run_loop(
        core,
        queue,
        Setting {
            rules,
            held: names.held,
        },
        processes,
        ceiling,
    )
}
