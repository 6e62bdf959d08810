// Reads a text word by word: M, then for each warrior the word `warrior`, its name, origin and place, and six numbers for each instruction. A warrior is written when the next begins.
use crate::fault::Fault;
use crate::kind::Kind;
use arrayvec::ArrayVec;
use machine::limits::NO_ORIGIN;
use match_write::{write_added, write_first};
use memory::LONGEST_FILE;
use metadata::Warrior;
use std::str;
use std::str::FromStr;

// The word that begins a warrior.
const BEGINNING: &[u8] = b"warrior";

// The word for no name, and for no origin.
const NONE: &[u8] = b"-";

// The most bytes of a text.
pub(crate) const LONGEST_TEXT: usize = 65536;

// What the words read so far say, the file of the warriors before, and memory for that file with one warrior more, which is kept here since filling and moving 32 KiB for each of 16 warriors of one instruction takes four times the instructions of all else.
#[derive(Drop)]
pub(crate) struct Reading<'a> {
    // Counted here, since a text's words come line by line.
    words: usize,
    wanted: Kind,
    size: u32,
    name: &'a [u8],
    origin: u16,
    place: u32,
    // A text has at most 5,460 instructions: 65,520 bytes.
    body: ArrayVec<u8, LONGEST_TEXT>,
    warriors: usize,
    file: ArrayVec<u8, LONGEST_FILE>,
    next: [u8; LONGEST_FILE],
}

// The number that a word says. `parse` takes a plus sign too, which a text has not.
fn number<T: FromStr>(word: &[u8]) -> Option<T>
where
    T::Err: Drop,
{
    if word.starts_with(b"+") {
        return None;
    }
    str::from_utf8(word).ok()?.parse().ok()
}

impl<'a> Reading<'a> {
    // Nothing is read yet.
    pub(crate) fn new() -> Self {
        Reading {
            words: 0,
            wanted: Kind::Size,
            size: 0,
            name: &[],
            origin: 0,
            place: 0,
            body: ArrayVec::new(),
            warriors: 0,
            file: ArrayVec::new(),
            next: [0; LONGEST_FILE],
        }
    }

    // Keeps what a word says; none where it is not of the wanted kind.
    fn keep(&mut self, word: &'a [u8]) -> Option<()> {
        match self.wanted {
            Kind::Size => self.size = number(word)?,
            Kind::Warrior => return (word == BEGINNING).then_some(()),
            Kind::Name => self.name = if word == NONE { &[] } else { word },
            Kind::Origin if word == NONE => self.origin = NO_ORIGIN,
            Kind::Origin => self.origin = number(word)?,
            Kind::Place => self.place = number(word)?,
            Kind::Opcode | Kind::Modifier | Kind::AMode | Kind::BMode => {
                let _ = self.body.try_push(number(word)?);
            }
            Kind::ANumber | Kind::BNumber => {
                let field: i32 = number(word)?;
                let _ = self.body.try_extend_from_slice(&field.to_le_bytes());
            }
        }
        Some(())
    }

    // Makes a file of the warriors before and the one that was read.
    fn write(&mut self) -> Result<(), Fault> {
        let warrior = Warrior {
            name: self.name,
            body: &self.body,
            origin: self.origin,
            place: self.place,
        };
        let written = if self.warriors == 0 {
            write_first(self.size, warrior, &mut self.next)
        } else {
            write_added(&self.file, warrior, &mut self.next)
        };
        self.warriors = self.warriors.saturating_add(1);
        let length = written.map_err(|error| Fault::Refused {
            warrior: self.warriors,
            error,
        })?;
        let made = self.next.get(..length).unwrap_or_default();
        self.file.clear();
        let _ = self.file.try_extend_from_slice(made);
        self.body.clear();
        Ok(())
    }

    // Takes one word.
    fn take(&mut self, word: &'a [u8]) -> Result<(), Fault> {
        self.words = self.words.saturating_add(1);
        if self.wanted == Kind::Opcode && word == BEGINNING {
            self.write()?;
            self.wanted = Kind::Warrior;
        }
        self.keep(word).ok_or(Fault::NotWanted {
            word: self.words,
            wanted: self.wanted,
        })?;
        self.wanted = self.wanted.next();
        Ok(())
    }

    // Takes the words of a line, set apart by spaces, tabs and carriage returns, up to a comment.
    fn take_line(&mut self, line: &'a [u8]) -> Result<(), Fault> {
        let said = line.split(|b| *b == b';').next().unwrap_or_default();
        for word in said.split(|b| b" \t\r".contains(b)) {
            if !word.is_empty() {
                self.take(word)?;
            }
        }
        Ok(())
    }

    // Takes the words of a text.
    fn take_text(&mut self, text: &'a [u8]) -> Result<(), Fault> {
        for line in text.split(|b| *b == b'\n') {
            self.take_line(line)?;
        }
        Ok(())
    }

    // Makes the file of a text, which ends where an instruction could begin.
    pub(crate) fn make(&mut self, text: &'a [u8]) -> Result<&[u8], Fault> {
        self.take_text(text)?;
        if self.wanted != Kind::Opcode {
            return Err(Fault::EndsEarly {
                word: self.words,
                wanted: self.wanted,
            });
        }
        self.write()?;
        Ok(&self.file)
    }
}
