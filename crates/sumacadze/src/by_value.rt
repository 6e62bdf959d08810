// What the machine's calls by value give, in numbers and in a lent header, and a ceiling that comes in numbers.
ghost use Rattle.std.specs.Prelude.{◌≡◌};
ghost use Rattle.lent.specs.Parts.{header_of, processes_of};
ghost use Rattle.sumacadze.specs.Report.{reported, ceiling_if};

use crate::Report;
use answer::{number, value};
use machine::{Header, Outcome};

// The answer of a call, with its writes and steps.
pub(crate) fn in_numbers(s: &Outcome) -> Report
    ensures { result ≡ reported s.now.answer s.now.writes s.now.steps }
{
    Report {
        number: number(s.answer),
        value: value(s.answer),
        writes: s.writes,
        steps: s.steps,
    }
}

// Hands what a step or a run changes back to the lent header, and tells the answer. The rules and the names stay, which saves copying 544 bytes.
pub(crate) fn hand_back(header: &mut Header, s: &Outcome) -> Report
    ensures changed { header.new ≡ header_of header.old.rules header.old.names (processes_of s.now.header) }
    ensures told { result ≡ reported s.now.answer s.now.writes s.now.steps }
{
    header.ring = s.header.ring;
    header.steps = s.header.steps;
    header.counts = s.header.counts;
    header.threads = s.header.threads;
    in_numbers(s)
}

// A ceiling, where one is said.
pub(crate) fn ceiling_if(said: bool, ceiling: u64) -> Option<u64>
    ensures { result ≡ ceiling_if said ceiling }
{
    said.then_some(ceiling)
}
