// Whether a warrior would be written to a match file, and if not, why (01, 'Match file'): nothing is changed.
#![tactic(auto)]

ghost use Rattle.std.specs.Prelude.{◌≡◌, ◌&&◌, ◌+◌, ◌*◌, leb, ltb, length};
ghost use Rattle.answer.specs.Numbers.{told};
ghost use Rattle.write_checks.specs.Refusal.{write_told};

use answer::{Answer, Error};
use machine::limits::LARGEST_CORE;
use metadata::Warrior;
use warrior_checks::warrior_refusal;

// Whether n warriors with bodies of `rest` bytes, and one more with a body of `len` bytes, are at most 16 and fit the output.
fn has_room(n: usize, rest: usize, len: usize, room: usize) -> bool
    ensures { result ≡ (ltb n 16 && leb (4 + 43 * (n + 1) + rest + len) room) }
{
    n < 16 && 4 + 43 * (n as u128 + 1) + rest as u128 + len as u128 <= room as u128
}

// The first refusal of writing that applies, of M and one warrior, beside n warriors with bodies of `rest` bytes, in an output of `room` bytes.
#[tactic(auto, unfolding(crate::specs::Refusal::write_told))]
pub fn refusal(n: usize, rest: usize, size: u32, w: Warrior<'_>, room: usize) -> Answer
    ensures { told result ≡ write_told size n w.entry.name.now w.entry.body.now w.entry.place (4 + 43 * (n + 1) + rest + length w.entry.body.now) room }
{
    if !(1..=LARGEST_CORE).contains(&size) {
        return Err(Error::InvalidCoreSize);
    }
    warrior_refusal(size, w.name, w.body, w.place)?;
    if !has_room(n, rest, w.body.len(), room) {
        return Err(Error::NoRoom);
    }
    Ok(())
}
