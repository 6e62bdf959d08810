// The opcode, the modes or a number of a packed cell (01, 'Cells'): unpacking all six fields would cost.
#![tactic(auto)]

ghost use Rattle.std.specs.Prelude.{◌≡◌};
ghost use Rattle.cell.specs.Cells as spec;
ghost use Rattle.word.specs.Words.{field_by};

use cell::{with_a, with_b};
use offset::Relative;
use types::field::{A, Field};

// The opcode's number.
pub fn opcode(w: u64) -> u64
    ensures { result ≡ (spec.unpacked w).opcode }
{
    (w >> 41) & 31
}

// The number of the A mode. It is a twin of the next: one function of the field would have to choose the shift.
pub fn a_mode(w: u64) -> u64
    ensures { result ≡ (spec.unpacked w).a_mode }
{
    (w >> 35) & 7
}

// The number of the B mode.
pub fn b_mode(w: u64) -> u64
    ensures { result ≡ (spec.unpacked w).b_mode }
{
    (w >> 32) & 7
}

// The number in a field that is told by its first bit. Any number is taken, and all but 16 are the B field's: by a `types::Field` alone it would ask more than it did, so `number_in` stands beside it.
pub fn number(w: u64, field: u64) -> Relative
    ensures { result.0 ≡ spec.number (field_by field) (spec.unpacked w) }
{
    if field == A {
        let a = ((w >> 16) & 0xffff) as u32;
        return Relative(a);
    }
    let b = (w & 0xffff) as u32;
    Relative(b)
}

// The number in a field.
pub fn number_in(w: u64, field: Field) -> Relative
    ensures { result.0 ≡ spec.number field (spec.unpacked w) }
{
    number(w, field.first_bit())
}

// The word with another number in a field that is told by its first bit: of any number, as above.
pub fn with_number(w: u64, field: u64, n: Relative) -> u64
    ensures { result ≡ spec.packed (spec.with_number (field_by field) n.0 (spec.unpacked w)) }
{
    if field == A {
        return with_a(w, n);
    }
    with_b(w, n)
}

// The word with another number in a field.
pub fn with_number_in(w: u64, field: Field, n: Relative) -> u64
    ensures { result ≡ spec.packed (spec.with_number field n.0 (spec.unpacked w)) }
{
    with_number(w, field.first_bit(), n)
}
