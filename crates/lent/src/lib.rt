// The parts of a record that a call is lent, put together as 01's machine (definitions in specs/): a header taken apart and made of its parts.
#![tactic(auto)]

ghost use Rattle.std.specs.Prelude.{◌≡◌, length};
ghost use Rattle.lent.specs.Parts.{processes_of, header_of};

use machine::{Header, Processes, Roster, Rules};

// What placing, starting and a step change of a header beside its names. No `From`, which would stand in `machine`, and that crate has no functions.
pub fn processes_of(h: Header) -> Processes
    ensures { result ≡ processes_of h }
{
    let counts = h.counts;
    let threads = h.threads;
    Processes {
        ring: h.ring,
        steps: h.steps,
        counts,
        threads,
    }
}

// A header of its parts.
pub fn header_of(rules: Rules, names: Roster, processes: Processes) -> Header
    ensures { result ≡ header_of rules names processes }
{
    let counts = processes.counts;
    let threads = processes.threads;
    Header {
        rules,
        ring: processes.ring,
        steps: processes.steps,
        names,
        counts,
        threads,
    }
}

// The lengths of the header's arrays, lent one by one: of an array that is a field behind a reference the check has no length.
pub fn sized<'a>(
    names: &'a [u8; 512],
    lengths: &'a [u8; 16],
    counts: &'a [u32; 16],
    threads: &'a [u32; 16],
)
    ensures { (length names.now ≡ 512) × (length lengths.now ≡ 16) × (length counts.now ≡ 16) × (length threads.now ≡ 16) }
{
    let _n = &names[..];
    let _l = &lengths[..];
    let _c = &counts[..];
    let _t = &threads[..];
}
