// The kinds of words, in the order in which a text has them.
use std::fmt;

// After M and `warrior` come a name, an origin, a place, and six words for each instruction; what is wanted next decides how a word is read, and a fault names it.
#[derive(Clone, Copy, PartialEq, Eq)]
pub(crate) enum Kind {
    Size,
    Warrior,
    Name,
    Origin,
    Place,
    Opcode,
    Modifier,
    AMode,
    BMode,
    ANumber,
    BNumber,
}

impl Kind {
    // The kind of the word after one; after an instruction comes another.
    pub(crate) fn next(self) -> Kind {
        match self {
            Kind::Size => Kind::Warrior,
            Kind::Warrior => Kind::Name,
            Kind::Name => Kind::Origin,
            Kind::Origin => Kind::Place,
            Kind::Place | Kind::BNumber => Kind::Opcode,
            Kind::Opcode => Kind::Modifier,
            Kind::Modifier => Kind::AMode,
            Kind::AMode => Kind::BMode,
            Kind::BMode => Kind::ANumber,
            Kind::ANumber => Kind::BNumber,
        }
    }
}

impl fmt::Display for Kind {
    // What a word of the kind may be.
    fn fmt<W: fmt::Write>(&self, f: &mut fmt::Formatter<W>) -> fmt::Result {
        f.write_str(match self {
            Kind::Size => "the core size M, a number",
            Kind::Warrior => "the word warrior",
            Kind::Name => "a name, or - for none",
            Kind::Origin => "an origin from 0 to 65535, or - for none",
            Kind::Place => "a place, a number",
            Kind::Opcode => "an opcode from 0 to 255, or the word warrior",
            Kind::Modifier => "a modifier from 0 to 255",
            Kind::AMode => "an A mode from 0 to 255",
            Kind::BMode => "a B mode from 0 to 255",
            Kind::ANumber => "an A number of 32 bits",
            Kind::BNumber => "a B number of 32 bits",
        })
    }
}
