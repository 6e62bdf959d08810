// Every warrior of a match file loaded in one call, for programs in C and Rust (02, A.1).
ghost use Rattle.std.specs.Prelude.{◌≡◌};
ghost use Rattle.answer.specs.Numbers.{gives};
ghost use Rattle.lent.specs.Parts.{machine_of};
ghost use Rattle.lent.specs.Given.{given, given_by};
ghost use Rattle.match_load.specs.Loading.{load_match};

use crate::Report;
use crate::by_value::in_numbers;
use machine::Header;

// What comes of the loads: the report, the number of the warrior at which they stopped, from 0 (0 where none was refused, since C has no Option), and the header.
#[repr(C)]
#[derive(Clone, Copy)]
pub struct Loads {
    pub report: Report,
    pub warrior: usize,
    pub header: Header,
}

// Loads every warrior of a match file, one by one in file order: its body is placed and a process started, up to the first call that is refused. What was done before it stands, its own body too where its start is refused.
pub fn sumacadze_load_match(
    core: &mut [u64],
    queue: &mut [u64],
    header: Header,
    file: &[u8],
) -> Loads
    ensures { (given (gives result.report.number result.report.value) result.report.writes result.report.steps (machine_of core.new queue.new result.header)
        ≡ given_by (load_match (machine_of core.old queue.old header) file.now).outcome)
        × (result.warrior ≡ (load_match (machine_of core.old queue.old header) file.now).warrior) }
{
    let s = match_load::load_match(core, queue, header, file);
    let report = in_numbers(&s.outcome);
    Loads {
        report,
        warrior: s.warrior,
        header: s.outcome.header,
    }
}
