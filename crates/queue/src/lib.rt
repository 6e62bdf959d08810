// The ring of queued processes, in lent memory: whether it lies there, and a process started.
#![tactic(auto)]

ghost use Rattle.std.specs.Prelude.{◌≡◌};
ghost use Rattle.lent.specs.Parts.{queue_of, headed, can_start, start_if};

use entry::pack;
use machine::limits::{LAST_NUMBER, MOST_ENTRIES, MOST_NAMES};
use machine::{Entry, Processes};
use offset::{Absolute, ahead};

// Whether the ring lies in the memory: the head in it, and at most 65,535 entries.
pub fn headed(queue: &[u64], processes: &Processes) -> bool
    ensures { result ≡ headed (queue_of queue.now processes.now) }
{
    let slots = queue.len();
    (slots <= MOST_ENTRIES) & ((processes.ring.head as usize) < slots)
}

// Whether the ring lies in the memory, and its length and the count and the next thread number of a name can rise.
fn can_start(queue: &[u64], processes: &Processes, name: usize) -> bool
    ensures { result ≡ can_start (queue_of queue.now processes.now) name }
{
    if name >= MOST_NAMES as usize {
        return false;
    }
    let rise = (processes.ring.length != LAST_NUMBER)
        & (processes.counts[name] != LAST_NUMBER)
        & (processes.threads[name] != LAST_NUMBER);
    headed(queue, processes) & rise
}

// Starts a process: an entry behind the last one, with its name's next thread number; length, count and number rise. Where one of them cannot, it changes nothing. The process limit is for the caller to ask: under a sound header a name that does not hold P has room.
pub fn start(queue: &mut [u64], processes: &mut Processes, place: Absolute, name: u8)
    ensures { queue_of queue.new processes.new ≡ start_if place.0 name (queue_of queue.old processes.old) }
{
    let who = name as usize;
    if !can_start(queue, processes, who) {
        return;
    }
    let slots = queue.len() as u32;
    let at = ahead(processes.ring.head, processes.ring.length, slots) as usize;
    let thread = processes.threads[who];
    queue[at] = pack(Entry {
        place,
        thread,
        name,
    });
    processes.ring.length += 1;
    processes.counts[who] += 1;
    processes.threads[who] += 1;
}
