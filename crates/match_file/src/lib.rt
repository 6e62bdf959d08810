// Reads match files (01, 'Match file').
#![tactic(auto)]

ghost use Rattle.std.specs.Prelude.{◌≡◌};
ghost use Rattle.match_format.specs.Format.{handed};
ghost use Rattle.match_format.specs.Faults.{fault, fault_at};
ghost use Rattle.match_file.specs.Reading.{unless_malformed, emptied, contents_in, line_in, warrior_of};

use answer::Error;
use encoding::{byte, number16_at, number32_at, part};
use match_format::{first_fault, first_fault_at};
use metadata::Warrior;

// How many warriors a file has, and M.
#[derive(Clone, Copy)]
pub struct Contents {
    pub warriors: usize,
    pub size: u32,
}

// What the line of a warrior says: where in the file its name begins and how long it is, where its body begins, its instruction count, origin and place. Places and lengths, and not `metadata::Warrior`'s slices, since C's line (sumacadze/src/file.rt) tells where in the file they lie.
#[derive(Clone, Copy)]
pub struct Line {
    pub name_start: usize,
    pub name_length: usize,
    pub body_start: usize,
    pub count: u16,
    pub origin: u16,
    pub place: u32,
}

// Reads how many warriors a file has, and M.
pub fn read(file: &[u8]) -> Result<Contents, Error>
    ensures { result ≡ unless_malformed (fault file.now) (contents_in file.now) }
{
    if let Some(position) = first_fault(file) {
        return Err(Error::Malformed(position));
    }
    Ok(Contents {
        warriors: byte(file, 0) as usize,
        size: number16_at(file, 1) as u32,
    })
}

// What the line of a warrior says, of any bytes: a file is checked once, by reading it.
pub fn line_in(file: &[u8], number: u8) -> Line
    ensures { result ≡ line_in file.now number }
{
    let at = 4 + 43 * number as usize;
    Line {
        name_start: at + 1,
        name_length: byte(file, at) as usize,
        body_start: number32_at(file, at + 33) as usize,
        count: number16_at(file, at + 37),
        origin: number16_at(file, at + 39),
        place: number16_at(file, at + 41) as u32,
    }
}

// The warrior of that line: its name and its body are parts of the file.
pub fn warrior_in(file: &[u8], number: u8) -> Warrior<'_>
    ensures { handed result ≡ warrior_of file.now number }
{
    let line = line_in(file, number);
    Warrior {
        name: part(file, line.name_start, line.name_length),
        body: part(file, line.body_start, 12 * line.count as usize),
        origin: line.origin,
        place: line.place,
    }
}

// Reads the line of a warrior.
pub fn read_line(file: &[u8], number: usize) -> Result<Line, Error>
    ensures { result ≡ unless_malformed (fault_at file.now number) (line_in file.now number) }
{
    if let Some(position) = first_fault_at(file, number) {
        return Err(Error::Malformed(position));
    }
    Ok(line_in(file, number as u8))
}

// The warrior of a line; one without bytes where the file or the number is faulty, since the parts are empty then (01, 'Match file').
fn warrior_or_empty(file: &[u8], number: usize) -> Warrior<'_>
    ensures name { result.name.now ≡ emptied (fault_at file.now number) (warrior_of file.now number).name }
    ensures body { result.body.now ≡ emptied (fault_at file.now number) (warrior_of file.now number).body }
{
    if first_fault_at(file, number).is_some() {
        return Warrior {
            name: &[],
            body: &[],
            origin: 0,
            place: 0,
        };
    }
    warrior_in(file, number as u8)
}

// The name of a warrior: a part of the file.
pub fn name(file: &[u8], number: usize) -> &[u8]
    ensures { result.now ≡ emptied (fault_at file.now number) (warrior_of file.now number).name }
{
    warrior_or_empty(file, number).name
}

// The body of a warrior: that very part of the file. One of two parts, each with its own place and length.
pub fn body(file: &[u8], number: usize) -> &[u8]
    ensures { result.now ≡ emptied (fault_at file.now number) (warrior_of file.now number).body }
{
    warrior_or_empty(file, number).body
}
