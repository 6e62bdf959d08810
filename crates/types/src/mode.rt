// The modes' numbers, in 01's order, # $ * @ { < } >, by their names in the Rust. No enum: which kind a mode is of is told by its order, and the public functions take any number.

pub const IMMEDIATE: u64 = 0;

pub const DIRECT: u64 = 1;

pub const INDIRECT_A: u64 = 2;

pub const INDIRECT_B: u64 = 3;

pub const PRE_DEC_INDIRECT_A: u64 = 4;

pub const PRE_DEC_INDIRECT_B: u64 = 5;

pub const POST_INC_INDIRECT_A: u64 = 6;

pub const POST_INC_INDIRECT_B: u64 = 7;
