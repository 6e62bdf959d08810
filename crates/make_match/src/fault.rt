// Why there is no match file.
use crate::kind::Kind;
use crate::reading::LONGEST_TEXT;
use answer::Error;
use machine::limits::LARGEST_CORE;
use memory::LONGEST_FILE;
use metadata::LONGEST;
use std::fmt;

// Words and warriors are counted from 1.
#[derive(Clone, Copy)]
pub(crate) enum Fault {
    Unreadable,
    TooLong,
    NotWanted { word: usize, wanted: Kind },
    EndsEarly { word: usize, wanted: Kind },
    Refused { warrior: usize, error: Error },
    NotTaken,
}

impl fmt::Display for Fault {
    // What is the matter, and at which word or warrior.
    fn fmt<W: fmt::Write>(&self, f: &mut fmt::Formatter<W>) -> fmt::Result {
        match *self {
            Fault::Unreadable => write!(f, "standard input cannot be read"),
            Fault::TooLong => write!(f, "the text is longer than {LONGEST_TEXT} bytes"),
            Fault::NotWanted { word, wanted } => {
                write!(f, "word {word} is not what is wanted: {wanted}")
            }
            Fault::EndsEarly { word, wanted } => write!(
                f,
                "the text ends after word {word}, where more is wanted: {wanted}"
            ),
            Fault::Refused { warrior, error } => {
                let number = error.number();
                let reason = Reason(error);
                write!(f, "warrior {warrior} is refused with {number}: {reason}")
            }
            Fault::NotTaken => write!(f, "standard output takes no more"),
        }
    }
}

// An error that the writer gives.
#[derive(Clone, Copy)]
struct Reason(Error);

impl fmt::Display for Reason {
    // When the writer gives it.
    fn fmt<W: fmt::Write>(&self, f: &mut fmt::Formatter<W>) -> fmt::Result {
        match self.0 {
            Error::InvalidCoreSize => write!(f, "M is not 1 to {LARGEST_CORE}"),
            Error::WarriorTooLong => write!(f, "longer than M"),
            Error::InvalidCode(index) => write!(
                f,
                "no such opcode, modifier, mode or default, instruction index {index}"
            ),
            Error::InvalidNameOrPlace => write!(
                f,
                "name over {LONGEST} bytes or with a byte outside 33 to 126, or place not below M"
            ),
            _ => write!(
                f,
                "a 17th warrior, or a file of more than {LONGEST_FILE} bytes"
            ),
        }
    }
}
