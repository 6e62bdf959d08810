// A line for each call, in numbers: answer, value, steps taken, queue length, digests of queue and core, and each name's count and next thread number.
use answer::{number, value};
use arrayvec::ArrayVec;
use machine::{Outcome, Ring};
use std::io::{Result, Write};

// A digest, and 32 bits more.
fn mix(digest: u32, half: u32) -> u32 {
    ((digest as u64 * 65599 + half as u64) % 4294967291) as u32
}

// A digest, and a word more.
fn more(digest: u32, word: &u64) -> u32 {
    mix(
        mix(digest, (word & 0xffff_ffff) as u32),
        (word >> 32) as u32,
    )
}

// The digest of the queue's entries, front first, round the end.
fn entries(queue: &[u64], ring: Ring) -> u32 {
    let Some((start, end)) = queue.split_at_checked(ring.head as usize) else {
        return 0;
    };
    end.iter()
        .chain(start)
        .take(ring.length as usize)
        .fold(0, more)
}

// Writes what a call left, in one piece; its 38 numbers have at most 20 digits each.
pub(crate) fn tell(core: &[u64], queue: &[u64], outcome: Outcome) -> Result<()> {
    let h = outcome.header;
    let (number, value) = (number(outcome.answer), value(outcome.answer));
    let (steps, length) = (h.steps, h.ring.length);
    let (queued, cells) = (entries(queue, h.ring), core.iter().fold(0, more));
    let mut line = ArrayVec::<u8, 1024>::new();
    write!(line, "{number} {value} {steps} {length} {queued} {cells}")?;
    for (count, next) in h.counts.iter().zip(&h.threads).take(h.names.held as usize) {
        write!(line, " {count}.{next}")?;
    }
    writeln!(line)?;
    io::write_all(1, &line);
    Ok(())
}
