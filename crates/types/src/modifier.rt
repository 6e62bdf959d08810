// The modifiers' numbers, in 01's order. No enum: they are a table's indices, and the public functions take any number.

pub const A: u8 = 0;

pub const B: u8 = 1;

pub const AB: u8 = 2;

pub const BA: u8 = 3;

pub const F: u8 = 4;

pub const X: u8 = 5;

pub const I: u8 = 6;

// In a body it asks for the default.
pub const UNNAMED: u8 = 255;
