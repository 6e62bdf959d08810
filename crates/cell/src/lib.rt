// The packed cell of the core (01, 'Cells').
#![tactic(auto)]

ghost use Rattle.std.specs.Prelude.{◌≡◌};
ghost use Rattle.cell.specs.Cells.{packed, unpacked, sound_word, fresh_cell, with_number};
ghost use Rattle.types.specs.declared.field.Field.{Field};

use offset::Relative;
use types::mode::DIRECT;
use types::modifier::{F, I};
use types::opcode::STP;

// An instruction of the core.
#[derive(Clone, Copy)]
pub struct Cell {
    pub opcode: u8,
    pub modifier: u8,
    pub a_mode: u8,
    pub b_mode: u8,
    pub a: Relative,
    pub b: Relative,
}

// The word of a cell.
pub fn pack(c: Cell) -> u64
    ensures { result ≡ packed c }
{
    (c.opcode as u64 & 31) << 41
        | (c.modifier as u64 & 7) << 38
        | (c.a_mode as u64 & 7) << 35
        | (c.b_mode as u64 & 7) << 32
        | (c.a.0 as u64 & 0xffff) << 16
        | c.b.0 as u64 & 0xffff
}

// The cell of a word.
pub fn unpack(w: u64) -> Cell
    ensures { result ≡ unpacked w }
{
    let opcode = ((w >> 41) & 31) as u8;
    let modifier = ((w >> 38) & 7) as u8;
    let a_mode = ((w >> 35) & 7) as u8;
    let b_mode = ((w >> 32) & 7) as u8;
    let a = ((w >> 16) & 0xffff) as u32;
    let b = (w & 0xffff) as u32;
    Cell {
        opcode,
        modifier,
        a_mode,
        b_mode,
        a: Relative(a),
        b: Relative(b),
    }
}

// The word with another A number. A function of the field would choose between this line and that of `with_b`, as `word::with_number` does.
pub fn with_a(w: u64, a: Relative) -> u64
    ensures { result ≡ packed (with_number Field.A a.0 (unpacked w)) }
{
    w & 0x3fff_0000_ffff | (a.0 as u64 & 0xffff) << 16
}

// The word with another B number.
pub fn with_b(w: u64, b: Relative) -> u64
    ensures { result ≡ packed (with_number Field.B b.0 (unpacked w)) }
{
    w & 0x3fff_ffff_0000 | b.0 as u64 & 0xffff
}

// Whether a word is sound in a core of that size: the opcode is tested with the bits above it, which are 0, and the A number with the B number.
pub fn sound(w: u64, size: u32) -> bool
    ensures { result ≡ sound_word size w }
{
    let m = size as u64;
    if w & 0xffff >= m {
        return false;
    }
    if w & 0xffff_ffff >= m * 65536 {
        return false;
    }
    if (w >> 38) & 7 > I as u64 {
        return false;
    }
    w >> 41 <= STP
}

// The word of a fresh cell.
pub fn fresh_cell() -> u64
    ensures { result ≡ fresh_cell }
{
    (F as u64) << 38 | DIRECT << 35 | DIRECT << 32
}
