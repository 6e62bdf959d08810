// One step that is not refused (01, 'One step').
ghost use Rattle.std.specs.Prelude.{◌≡◌, ◌<◌, get_or};
ghost use Rattle.std.proofs.Math.ListN as lists;
ghost use Rattle.answer.specs.Numbers.{told};
ghost use Rattle.machine.specs.declared.Roster.{Roster};
ghost use Rattle.machine.specs.Queue.{unpacked_entry};
ghost use Rattle.machine.specs.Step as spec;
ghost use Rattle.lent.specs.Parts.{parts};
ghost use Rattle.lent.specs.Given.{given, given_by};
ghost use Rattle.steps.specs.Inner.Instruction.{Executable};
ghost use Rattle.steps.specs.Inner.Queueing.{Front, limited_queue, tail_of};

use crate::execute::execute;
use crate::ring::{Stepped, requeue};
use entry::unpack;
use machine::{Processes, Rules};

// The front entry and the cell at its place.
#[derive(Clone, Copy)]
pub(crate) struct Fetched {
    pub entry: u64,
    pub cell: u64,
}

// Reads the front entry and the cell at its place.
pub(crate) fn fetch(core: &[u64], queue: &[u64], head: u32) -> Fetched
    requires { (head < lists.length queue.now) × ((unpacked_entry (get_or queue.now head 0)).place.0 < lists.length core.now) }
    ensures { (result.entry ≡ get_or queue.now head 0) × (result.cell ≡ get_or core.now (unpacked_entry (get_or queue.now head 0)).place.0 0) }
{
    let entry = queue[head as usize];
    let cell = core[unpack(entry).place.0 as usize];
    Fetched { entry, cell }
}

// One step. The parts are lent one by one, as to `run_parts`.
pub(crate) fn step_once(
    core: &mut [u64],
    queue: &mut [u64],
    rules: Rules,
    processes: &mut Processes,
    tail: u32,
    fetched: Fetched,
) -> Stepped
    requires { Front (limited_queue rules.processes queue.old processes.old) tail × (fetched.entry ≡ get_or queue.old processes.old.ring.head 0)
        × Executable rules core.old (unpacked_entry (get_or queue.old processes.old.ring.head 0)).place.0 fetched.cell × (processes.old.steps < 4294967295) }
    ensures { ((names : Roster) → given (told result.answer) result.writes 1 (parts core.new queue.new rules names processes.new)
        ≡ given_by (spec.executed (parts core.old queue.old rules names processes.old)))
        × (result.tail ≡ tail_of (limited_queue rules.processes queue.new processes.new)) }
{
    let w = fetched.entry;
    let executed = execute(core, rules, unpack(w).place, fetched.cell);
    processes.steps += 1;
    requeue(queue, processes, rules.processes, tail, w, executed)
}
