// The codes of an instruction: opcodes, modifiers and modes by name, default modifiers (01, 'Cells') and field pairs (01, 'One step').
#![tactic(auto)]

ghost use Rattle.std.specs.Prelude.{◌≡◌, leb};
ghost use Rattle.types.specs.Defaults.{ranged, default_modifier, default_of, given, defaulted};
ghost use Rattle.types.specs.Modifier.{I};
ghost use Rattle.types.specs.Types.{field_pairs};

use crate::field::Field;
use crate::field::Field::{A, B};
use crate::mode::{IMMEDIATE, POST_INC_INDIRECT_B};
use crate::modifier::{AB, F, I};
use crate::opcode::{
    ADD, CMP, DAT, DIV, DJN, JMN, JMP, JMZ, LDP, MOD, MOV, MUL, NOP, SEQ, SLT, SNE, SPL, STP, SUB,
};
use answer::Error;

pub mod field;
pub mod mode;
pub mod modifier;
pub mod opcode;

// Whether the codes are in range.
pub fn in_range(opcode: u8, a_mode: u8, b_mode: u8) -> bool
    ensures { result ≡ ranged opcode a_mode b_mode }
{
    opcode <= STP as u8
        && a_mode <= POST_INC_INDIRECT_B as u8
        && b_mode <= POST_INC_INDIRECT_B as u8
}

// The rule, for codes in range, where it gives one.
fn default_modifier(opcode: u8, a_mode: u8, b_mode: u8) -> Option<u8>
    ensures { result ≡ given (default_modifier opcode a_mode b_mode) }
{
    match opcode as u64 {
        DAT => Some(F),
        JMP | JMZ | JMN | DJN | SPL | NOP => Some(modifier::B),
        _ if a_mode as u64 == IMMEDIATE => Some(AB),
        _ if b_mode as u64 == IMMEDIATE => Some(modifier::B),
        MOV | CMP | SEQ | SNE => Some(I),
        SLT => Some(modifier::B),
        ADD | SUB | MUL | DIV | MOD => Some(F),
        _ => None,
    }
}

// The default modifier of these codes, where they are in range and have one.
fn default_of(opcode: u8, a_mode: u8, b_mode: u8) -> Option<u8>
    ensures { result ≡ given (default_of opcode a_mode b_mode) }
{
    if !in_range(opcode, a_mode, b_mode) {
        return None;
    }
    default_modifier(opcode, a_mode, b_mode)
}

// Whether these codes have a default: all in range do, but LDP and STP without `#`. By `default_of`, which goes through the rule, the check of an instruction without a modifier takes 26 to 28 instructions where it takes 18.
pub fn has_default(opcode: u8, a_mode: u8, b_mode: u8) -> bool
    ensures { result ≡ leb (default_of opcode a_mode b_mode) I }
{
    if !in_range(opcode, a_mode, b_mode) {
        return false;
    }
    if opcode < LDP as u8 {
        return true;
    }
    (a_mode as u64 == IMMEDIATE) | (b_mode as u64 == IMMEDIATE)
}

// The default modifier of an instruction that names none.
pub fn default_88_to_94(opcode: u8, a_mode: u8, b_mode: u8) -> Result<u8, Error>
    ensures { result ≡ defaulted (default_of opcode a_mode b_mode) }
{
    default_of(opcode, a_mode, b_mode).ok_or(Error::InvalidCode(0))
}

// By modifier: a's field, and b's field and target, of the first pair; then of the last, the same one where there is one.
pub static FIELD_PAIRS: [[Field; 4]; 7] = [
    [A, A, A, A],
    [B, B, B, B],
    [A, B, A, B],
    [B, A, B, A],
    [A, A, B, B],
    [B, A, A, B],
    [A, A, B, B],
];

// The field pairs of the seven modifiers.
pub fn field_pairs() -> [[Field; 4]; 7]
    ensures { result ≡ field_pairs }
{
    FIELD_PAIRS
}
