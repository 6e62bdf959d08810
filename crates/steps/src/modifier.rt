// Which number fields meet, by modifier, and the numbers in them (01, 'One step').
ghost use Rattle.std.specs.Prelude.{◌≡◌, ◌≤◌};
ghost use Rattle.cell.specs.Cells as spec;
ghost use Rattle.steps.specs.Inner.Acts.{met_by, first_of, last_of};

use offset::Relative;
use types::FIELD_PAIRS;
use types::field::Field;
use word::number_in;

// The modifier's number.
pub(crate) fn modifier(w: u64) -> u8
    ensures { result ≡ (spec.unpacked w).modifier }
{
    let k = ((w >> 38) & 7) as u8;
    k
}

// A number of the A register and one of the B register that meet, and the field of the latter, which is the target's.
#[derive(Clone, Copy)]
pub(crate) struct Met {
    pub a: Relative,
    pub b: Relative,
    pub target: Field,
}

// The numbers in these fields of both registers.
fn pair(a: Field, b: Field, ra: u64, rb: u64) -> Met
    ensures { result ≡ met_by a b ra rb }
{
    Met {
        a: number_in(ra, a),
        b: number_in(rb, b),
        target: b,
    }
}

// The first and the last pair of numbers that meet, the same one where there is one.
pub(crate) fn meet(modifier: u8, ra: u64, rb: u64) -> (Met, Met)
    requires { modifier ≤ 6 }
    ensures { (result.0 ≡ first_of modifier ra rb) × (result.1 ≡ last_of modifier ra rb) }
{
    let row = FIELD_PAIRS[modifier as usize];
    (pair(row[0], row[1], ra, rb), pair(row[2], row[3], ra, rb))
}
