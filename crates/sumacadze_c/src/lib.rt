// The symbols that programs in C and Rust link with (include/sumacadze.h): each is the function of its name in `sumacadze`, and promises the same.
#![tactic(auto)]

ghost use Rattle.std.specs.Prelude.{◌≡◌};
ghost use Rattle.answer.specs.Numbers.{gives};
ghost use Rattle.cell.specs.Cells.{unpacked};
ghost use Rattle.machine.specs.Fresh as begins;
ghost use Rattle.machine.specs.Place as placing;
ghost use Rattle.machine.specs.Start as starting;
ghost use Rattle.machine.specs.Run as running;
ghost use Rattle.machine.specs.Step as one;
ghost use Rattle.lent.specs.Parts.{machine_of};
ghost use Rattle.lent.specs.Given.{given, given_by};
ghost use Rattle.match_load.specs.Loading.{load_match};
ghost use Rattle.sumacadze.specs.Report.{ceiling_if, cell_of};

use machine::{Header, Rules};
use sumacadze::load_match::Loads;
use sumacadze::{Fresh, Reading, Report};

pub mod file;

// A fresh machine: fresh cells, zeros in the queue memory, and its header.
#[unsafe(no_mangle)]
pub extern "C" fn sumacadze_fresh(rules: Rules, core: &mut [u64], queue: &mut [u64]) -> Fresh
    ensures { (result.number ≡ (begins.fresh rules core.old queue.old).number)
        × (machine_of core.new queue.new result.header ≡ (begins.fresh rules core.old queue.old).machine) }
{
    sumacadze::sumacadze_fresh(rules, core, queue)
}

// The cell at any number, reduced; all zero where it is refused.
#[unsafe(no_mangle)]
pub extern "C" fn sumacadze_get(core: &[u64], queue: &[u64], header: Header, number: i32) -> Reading
    ensures { (result.number ≡ (running.read (machine_of core.now queue.now header) number).number)
        × (cell_of result.opcode result.modifier result.a_mode result.b_mode result.a result.b ≡ unpacked (running.read (machine_of core.now queue.now header) number).value) }
{
    sumacadze::sumacadze_get(core, queue, header, number)
}

// Places a body under a name and starts nothing; an empty name is Warrior0.
#[unsafe(no_mangle)]
pub extern "C" fn sumacadze_place(
    core: &mut [u64],
    queue: &[u64],
    header: &mut Header,
    name: &[u8],
    body: &[u8],
    place: u32,
) -> Report
    ensures { given (gives result.number result.value) result.writes result.steps (machine_of core.new queue.now header.new)
        ≡ given_by (placing.place (machine_of core.old queue.now header.old) name.now body.now place) }
{
    sumacadze::sumacadze_place(core, queue, header, name, body, place)
}

// Starts a process under a name at a place of the core; an empty name is Warrior0.
#[unsafe(no_mangle)]
pub extern "C" fn sumacadze_start(
    core: &[u64],
    queue: &mut [u64],
    header: &mut Header,
    name: &[u8],
    place: u32,
) -> Report
    ensures { given (gives result.number result.value) result.writes result.steps (machine_of core.now queue.new header.new)
        ≡ given_by (starting.start (machine_of core.now queue.old header.old) name.now place) }
{
    sumacadze::sumacadze_start(core, queue, header, name, place)
}

// Executes one instruction of the process at the front.
#[unsafe(no_mangle)]
pub extern "C" fn sumacadze_step(core: &mut [u64], queue: &mut [u64], header: &mut Header) -> Report
    ensures { given (gives result.number result.value) result.writes result.steps (machine_of core.new queue.new header.new)
        ≡ given_by (one.step (machine_of core.old queue.old header.old)) }
{
    sumacadze::sumacadze_step(core, queue, header)
}

// Steps while steps taken are below the ceiling, if one is said (else below 10,000), up to the first answer not 0. C has no Option, so `said` tells whether there is a ceiling.
#[unsafe(no_mangle)]
pub extern "C" fn sumacadze_run(
    core: &mut [u64],
    queue: &mut [u64],
    header: &mut Header,
    said: bool,
    ceiling: u64,
) -> Report
    ensures { given (gives result.number result.value) result.writes result.steps (machine_of core.new queue.new header.new)
        ≡ given_by (running.run (ceiling_if said ceiling) (machine_of core.old queue.old header.old)) }
{
    sumacadze::sumacadze_run(core, queue, header, said, ceiling)
}

// Loads every warrior of a match file, one by one in file order: its body is placed and a process started, up to the first call that is refused. What was done before it stands, its own body too where its start is refused.
#[unsafe(no_mangle)]
pub extern "C" fn sumacadze_load_match(
    core: &mut [u64],
    queue: &mut [u64],
    header: Header,
    file: &[u8],
) -> Loads
    ensures { (given (gives result.report.number result.report.value) result.report.writes result.report.steps (machine_of core.new queue.new result.header)
        ≡ given_by (load_match (machine_of core.old queue.old header) file.now).outcome)
        × (result.warrior ≡ (load_match (machine_of core.old queue.old header) file.now).warrior) }
{
    sumacadze::load_match::sumacadze_load_match(core, queue, header, file)
}
