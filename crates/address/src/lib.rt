// Where an operand points (01, 'Pointers').
#![tactic(auto)]

ghost use Rattle.std.specs.Prelude.{◌≡◌, cond, eqb, get_or};
ghost use Rattle.machine.specs.Pointers as spec;
ghost use Rattle.address.specs.Rounding.{decremented, incremented, field_through, aimed};

use offset::{Absolute, Relative};
use types::field::Field;
use types::mode::{POST_INC_INDIRECT_A, PRE_DEC_INDIRECT_A};

// One less than a field number, round the end; 0 in a core of no cells. Of a number that is not below the size, `offset::plus` gives another; and by that, here and below, a run takes up to 1.5 % more instructions.
pub fn decrement(n: Relative, size: u32) -> Relative
    ensures { result.0 ≡ decremented size n.0 }
{
    Relative(n.0.checked_sub(1).unwrap_or(size.saturating_sub(1)))
}

// One more than a field number, round the end: no mirror of the other beyond the size.
pub fn increment(n: Relative, size: u32) -> Relative
    ensures { result.0 ≡ incremented size n.0 }
{
    let more = n.0 as u64 + 1;
    if more < size as u64 {
        let next = more as u32;
        return Relative(next);
    }
    Relative(0)
}

// The field that an indirect mode goes through. A mode is its number, as a cell has it, and any number is taken: a caller owes nothing.
pub fn field_of(mode: u64) -> Field
    ensures { result ≡ field_through mode }
{
    if mode % 2 == 0 {
        return Field::A;
    }
    Field::B
}

// The number that the pointer is made of: the one found, minus 1 for `{` and `<`. Of any mode, as above. Chain's `lowered` has the word with that number.
pub fn aim(size: u32, mode: u64, found: Relative) -> Relative
    ensures { result.0 ≡ aimed (get_or spec.shifts mode spec.keeps) size found.0 }
{
    if mode < PRE_DEC_INDIRECT_A {
        return found;
    }
    if mode < POST_INC_INDIRECT_A {
        return decrement(found, size);
    }
    found
}

// The word at a place: the one that was there, or the one that is left at that location.
pub fn word_at(place: Absolute, there: u64, location: Absolute, word: u64) -> u64
    ensures { result ≡ cond (eqb place.0 location.0) word there }
{
    if place.0 == location.0 {
        return word;
    }
    there
}
