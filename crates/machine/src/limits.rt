// The limits of the record (01, 'What a call gives back'; 02, A.4).

// The size of the largest core.
pub const LARGEST_CORE: u32 = 46341;

// The most entries that a queue's memory has.
pub const MOST_ENTRIES: usize = 65535;

// The largest process limit.
pub const MOST_PROCESSES: u32 = 4095;

// The last number of steps taken, of a count and of a next thread number.
pub const LAST_NUMBER: u32 = 4294967295;

// The origin that says none.
pub const NO_ORIGIN: u16 = 65535;

// The most names held.
pub const MOST_NAMES: u32 = 16;
