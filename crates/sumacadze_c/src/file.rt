// Reading a match file, for programs in C and Rust: the functions of `sumacadze::file`.
ghost use Rattle.std.specs.Prelude.{◌≡◌, ◌*◌};
ghost use Rattle.answer.specs.Numbers.{gives};
ghost use Rattle.match_format.specs.Faults.{fault, fault_at};
ghost use Rattle.match_file.specs.Reading.{told_by, zeroed, warriors_in, size_in, line_at, name_start, name_length, body_start, count_of, warrior_of};

use sumacadze::file::{Contents, Line};

// Reads how many warriors a file has, and M.
#[unsafe(no_mangle)]
pub extern "C" fn sumacadze_read(file: &[u8]) -> Contents
    ensures { (gives result.number result.position ≡ told_by (fault file.now))
        × (result.warriors ≡ zeroed (fault file.now) (warriors_in file.now))
        × (result.size ≡ zeroed (fault file.now) (size_in file.now)) }
{
    sumacadze::file::sumacadze_read(file)
}

// Reads the line of a warrior.
#[unsafe(no_mangle)]
pub extern "C" fn sumacadze_read_line(file: &[u8], warrior: usize) -> Line
    ensures { (gives result.number result.position ≡ told_by (fault_at file.now warrior))
        × (result.name_start ≡ zeroed (fault_at file.now warrior) (name_start (line_at warrior)))
        × (result.name_length ≡ zeroed (fault_at file.now warrior) (name_length file.now (line_at warrior)))
        × (result.body_start ≡ zeroed (fault_at file.now warrior) (body_start file.now (line_at warrior)))
        × (result.body_length ≡ zeroed (fault_at file.now warrior) (12 * count_of file.now warrior))
        × (result.origin ≡ zeroed (fault_at file.now warrior) (warrior_of file.now warrior).origin)
        × (result.place ≡ zeroed (fault_at file.now warrior) (warrior_of file.now warrior).place) }
{
    sumacadze::file::sumacadze_read_line(file, warrior)
}
