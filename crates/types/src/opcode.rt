// The opcodes' numbers, in 01's order. No enum: 01 has a match over the numbers, and the public functions take any.

pub const DAT: u64 = 0;

pub const MOV: u64 = 1;

pub const ADD: u64 = 2;

pub const SUB: u64 = 3;

pub const MUL: u64 = 4;

pub const DIV: u64 = 5;

pub const MOD: u64 = 6;

pub const JMP: u64 = 7;

pub const JMZ: u64 = 8;

pub const JMN: u64 = 9;

pub const DJN: u64 = 10;

pub const CMP: u64 = 11;

pub const SEQ: u64 = 12;

pub const SNE: u64 = 13;

pub const SLT: u64 = 14;

pub const SPL: u64 = 15;

pub const NOP: u64 = 16;

pub const LDP: u64 = 17;

pub const STP: u64 = 18;
