// What a call gives back (01's first table, and 02's numbers after it), in its order. The names are the Rust's where it has one.
#![tactic(auto)]

ghost use Rattle.std.specs.Prelude.{◌≡◌};
ghost use Rattle.answer.specs.Numbers.{told, told_error};

// Why a call is refused, or how a process ended.
#[derive(Clone, Copy, Debug, PartialEq, Eq)]
pub enum Error {
    InvalidCoreSize,
    InvalidMemory,
    WarriorTooLong,
    InvalidCode(usize),
    InvalidNameOrPlace,
    NoRoom,
    NoRemainingProcesses,
    NumbersExhausted,
    UnsoundRecord,
    PrivateMemory,
    ExecuteDat(u32),
    DivideByZero,
    Malformed(usize),
    InvalidLimit,
}

// The answer of a call: 0 where all went on.
pub type Answer = Result<(), Error>;

impl Error {
    // Its number. No `From`: an error has two numbers, this and its value.
    pub fn number(self) -> u8
        ensures { result ≡ (told_error self).number }
    {
        match self {
            Error::InvalidCoreSize => 1,
            Error::InvalidMemory => 2,
            Error::WarriorTooLong => 3,
            Error::InvalidCode(_) => 4,
            Error::InvalidNameOrPlace => 5,
            Error::NoRoom => 6,
            Error::NoRemainingProcesses => 7,
            Error::NumbersExhausted => 8,
            Error::UnsoundRecord => 9,
            Error::PrivateMemory => 10,
            Error::ExecuteDat(_) => 11,
            Error::DivideByZero => 12,
            Error::Malformed(_) => 13,
            Error::InvalidLimit => 14,
        }
    }

    // The value given with it: an index, a place or a position; else 0.
    pub fn value(self) -> usize
        ensures { result ≡ (told_error self).value }
    {
        match self {
            Error::InvalidCode(index) => index,
            Error::ExecuteDat(place) => place as usize,
            Error::Malformed(position) => position,
            _ => 0,
        }
    }
}

// An answer's number.
pub fn number(answer: Answer) -> u8
    ensures { result ≡ (told answer).number }
{
    match answer {
        Ok(()) => 0,
        Err(e) => e.number(),
    }
}

// The value given with it.
pub fn value(answer: Answer) -> usize
    ensures { result ≡ (told answer).value }
{
    match answer {
        Ok(()) => 0,
        Err(e) => e.value(),
    }
}
