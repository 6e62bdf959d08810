// What an executed instruction does to the ring: the front entry is popped, and the next places are pushed. The tail is the slot that the next entry goes to.
ghost use Rattle.std.specs.Prelude.{◌≡◌, cond, ◌-◌, ◌^◌, ◌<◌, ◌≤◌, eqb, get_or, set};
ghost use Rattle.std.proofs.Math.ListN as lists;
ghost use Rattle.answer.specs.Numbers.{told, told_error, gives};
ghost use Rattle.offset.specs.Offset.{ahead};
ghost use Rattle.machine.specs.Queue as spec;
ghost use Rattle.machine.specs.Queue.{packed_entry, unpacked_entry, entry, started};
ghost use Rattle.steps.specs.Inner.Queueing.{Front, Near, Requeued, limited_queue, tail_of, ended};

use crate::opcode::Executed;
use answer::{Answer, Error};
use entry::{pack, unpack};
use machine::{Entry, Processes};
use offset::Absolute;

// What a step answers, with its writes, and the tail afterwards. Both stand beside a refusal too, so the answer is a field: a Result has no place for them.
#[derive(Clone, Copy)]
pub(crate) struct Stepped {
    pub answer: Answer,
    pub writes: u64,
    pub tail: u32,
}

// The slot after a slot, round the end. By `offset::ahead`, which takes any numbers, a run takes 12 to 18 % more instructions; `address::increment` is of a field number, and 01 keeps those apart.
fn slot_after(slot: u32, slots: u32) -> u32
    requires { slot < slots }
    ensures { result ≡ ahead slots slot 1 }
{
    let after = slot + 1;
    if after < slots {
        return after;
    }
    0
}

// Writes a word to the tail's slot: the tail afterwards. That the memory is no longer than fresh takes is asked, here and below: it is lent, and tested once a run.
fn push(queue: &mut [u64], tail: u32, w: u64) -> u32
    requires { (lists.length queue.old ≤ 65535) × (tail < lists.length queue.old) }
    ensures { (result ≡ ahead (lists.length queue.old) tail 1) × (queue.new ≡ set queue.old tail w) }
{
    queue[tail as usize] = w;
    slot_after(tail, queue.len() as u32)
}

// SPL's child is started, where its name does not hold P: the tail afterwards. By `queue::start`, which tests what a header may hold and finds the tail anew, a step of a battle with SPL takes more instructions; before the process limit was of a name it was 4 %.
fn start_child(
    queue: &mut [u64],
    processes: &mut Processes,
    limit: u32,
    tail: u32,
    place: Absolute,
    name: u8,
) -> u32
    requires { (lists.length queue.old ≤ 65535) × (tail < lists.length queue.old) × (tail ≡ tail_of (limited_queue limit queue.old processes.old)) × (name < 16)
        × (processes.old.ring.length ≤ lists.length queue.old)
        × (get_or processes.old.threads name 0 ≡ 4294967295 → ⊥) × (get_or processes.old.counts name 0 < 4294967295) }
    ensures { (limited_queue limit queue.new processes.new ≡ cond (spec.full (limited_queue limit queue.old processes.old) name) (limited_queue limit queue.old processes.old) (started place.0 name (limited_queue limit queue.old processes.old)))
        × (result ≡ tail_of (limited_queue limit queue.new processes.new)) }
{
    let who = name as usize;
    if processes.counts[who] >= limit {
        return tail;
    }
    let thread = processes.threads[who];
    let after = push(
        queue,
        tail,
        pack(Entry {
            place,
            thread,
            name,
        }),
    );
    processes.threads[who] = thread + 1;
    processes.counts[who] += 1;
    processes.ring.length += 1;
    after
}

// A process of a name ends: the answer is 0 if the name has entries left.
fn end_process(processes: &mut Processes, name: u8, end: Error) -> Answer
    requires { (name < 16) × (0 < get_or processes.old.counts name 0) × (0 < processes.old.ring.length) }
    ensures { (told result ≡ cond (eqb (get_or processes.old.counts name 0 - 1) 0) (told_error end) (gives 0 0))
        × (processes.new ≡ ended name processes.old) }
{
    let who = name as usize;
    processes.ring.length -= 1;
    processes.counts[who] -= 1;
    if processes.counts[who] == 0 {
        return Err(end);
    }
    Ok(())
}

// The word of a sound entry at another place. Name and thread stay in the word as they are, so only the place is put in: `entry::pack` would put in all three, and a step of a run takes one instruction more by a mask.
fn moved(w: u64, place: Absolute) -> u64
    requires { (w < 2 ^ 52) × (place.0 < 65536) }
    ensures { result ≡ packed_entry (entry place.0 (unpacked_entry w).thread (unpacked_entry w).name) }
{
    w - (w & 0xffff) + place.0 as u64
}

// The front entry is popped, and pushed again as it was executed, under a process limit.
pub(crate) fn requeue(
    queue: &mut [u64],
    processes: &mut Processes,
    limit: u32,
    tail: u32,
    w: u64,
    executed: Executed,
) -> Stepped
    requires { Front (limited_queue limit queue.old processes.old) tail × (w ≡ get_or queue.old processes.old.ring.head 0) × Near executed }
    ensures { Requeued (limited_queue limit queue.old processes.old) executed result (limited_queue limit queue.new processes.new) }
{
    processes.ring.head = slot_after(processes.ring.head, queue.len() as u32);
    match executed {
        Executed::Goes(next, writes) => Stepped {
            answer: Ok(()),
            writes,
            tail: push(queue, tail, moved(w, next)),
        },
        Executed::Splits(next, child, writes) => {
            let after = push(queue, tail, moved(w, next));
            Stepped {
                answer: Ok(()),
                writes,
                tail: start_child(queue, processes, limit, after, child, unpack(w).name),
            }
        }
        Executed::Dat(writes) => {
            let e = unpack(w);
            Stepped {
                answer: end_process(processes, e.name, Error::ExecuteDat(e.place.0)),
                writes,
                tail,
            }
        }
        Executed::DivideByZero(writes) => Stepped {
            answer: end_process(processes, unpack(w).name, Error::DivideByZero),
            writes,
            tail,
        },
    }
}
