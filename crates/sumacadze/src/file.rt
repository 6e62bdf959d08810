// Reading a match file, for programs in C and Rust.
ghost use Rattle.std.specs.Prelude.{◌≡◌, ◌*◌};
ghost use Rattle.answer.specs.Numbers.{gives};
ghost use Rattle.match_format.specs.Faults.{fault, fault_at};
ghost use Rattle.match_file.specs.Reading.{told_by, zeroed, warriors_in, size_in, line_at, name_start, name_length, body_start, count_of, warrior_of};

// 01's number, the position of a fault, how many warriors a file has, and M; numbers and zeros, since C has no Result.
#[repr(C)]
#[derive(Clone, Copy)]
pub struct Contents {
    pub number: u8,
    pub position: usize,
    pub warriors: usize,
    pub size: u32,
}

// 01's number, the position of a fault, which bytes of the file are a warrior's name and body, its origin and its place; numbers and zeros, since C has no Result.
#[repr(C)]
#[derive(Clone, Copy)]
pub struct Line {
    pub number: u8,
    pub position: usize,
    pub name_start: usize,
    pub name_length: usize,
    pub body_start: usize,
    pub body_length: usize,
    pub origin: u16,
    pub place: u32,
}

// Reads how many warriors a file has, and M.
pub fn sumacadze_read(file: &[u8]) -> Contents
    ensures { (gives result.number result.position ≡ told_by (fault file.now))
        × (result.warriors ≡ zeroed (fault file.now) (warriors_in file.now))
        × (result.size ≡ zeroed (fault file.now) (size_in file.now)) }
{
    match match_file::read(file) {
        Ok(contents) => Contents {
            number: 0,
            position: 0,
            warriors: contents.warriors,
            size: contents.size,
        },
        Err(error) => Contents {
            number: error.number(),
            position: error.value(),
            warriors: 0,
            size: 0,
        },
    }
}

// Reads the line of a warrior.
pub fn sumacadze_read_line(file: &[u8], warrior: usize) -> Line
    ensures { (gives result.number result.position ≡ told_by (fault_at file.now warrior))
        × (result.name_start ≡ zeroed (fault_at file.now warrior) (name_start (line_at warrior)))
        × (result.name_length ≡ zeroed (fault_at file.now warrior) (name_length file.now (line_at warrior)))
        × (result.body_start ≡ zeroed (fault_at file.now warrior) (body_start file.now (line_at warrior)))
        × (result.body_length ≡ zeroed (fault_at file.now warrior) (12 * count_of file.now warrior))
        × (result.origin ≡ zeroed (fault_at file.now warrior) (warrior_of file.now warrior).origin)
        × (result.place ≡ zeroed (fault_at file.now warrior) (warrior_of file.now warrior).place) }
{
    match match_file::read_line(file, warrior) {
        Ok(line) => Line {
            number: 0,
            position: 0,
            name_start: line.name_start,
            name_length: line.name_length,
            body_start: line.body_start,
            body_length: 12 * line.count as usize,
            origin: line.origin,
            place: line.place,
        },
        Err(error) => Line {
            number: error.number(),
            position: error.value(),
            name_start: 0,
            name_length: 0,
            body_start: 0,
            body_length: 0,
            origin: 0,
            place: 0,
        },
    }
}
