// The first fault of a match file (01, 'Match file'): its fields are checked in file order. The layout's numbers, 4, 32 and 43, stand in the code as the promises write them.
#![tactic(auto)]

ghost use Rattle.std.specs.Prelude.{◌≡◌, ◌+◌, ◌*◌, ◌^◌, ◌≤◌, ◌<◌, length, IfOk, IfErr};
ghost use Rattle.std.specs.Result.{result_err};
ghost use Rattle.encoding.specs.Bytes.{part};
ghost use Rattle.match_format.specs.Format.{number};
ghost use Rattle.match_format.specs.Faults.{within, faulty, line_fault, lines_fault, fault, fault_at};

use encoding::{byte, number16_at, number32_at};

// Checks that a field does not go past the end of the file: the error is the file's length.
fn check_field(file: &[u8], at: usize, size: usize) -> Result<(), usize>
    requires { at + size < 2 ^ 64 }
    ensures there { IfOk result (λ _. at + size ≤ length file.now) }
    ensures past { IfErr result (λ p. (length file.now < at + size) × (p ≡ length file.now)) }
{
    if file.len() < at + size {
        return Err(file.len());
    }
    Ok(())
}

// Checks the bytes of a field: the error is where the first below lo or above hi stands.
fn check_bytes(file: &[u8], at: usize, size: usize, lo: u8, hi: u8) -> Result<(), usize>
    requires { at + size ≤ length file.now }
    ensures { result_err result ≡ faulty (within lo hi) at (part file.now at size) }
{
    let bytes = &file[at..at + size];
    match bytes.iter().position(|b| !(lo..=hi).contains(b)) {
        Some(i) => Err(at + i),
        None => Ok(()),
    }
}

// Checks a line of the contents, whose body is to start at a position: the error is its first fault. Gives the start of the next body.
#[tactic(auto, unfolding(crate::specs::Faults::line_fault))]
fn check_line(file: &[u8], at: usize, start: usize) -> Result<usize, usize>
    requires { (at < 2 ^ 32) × (start < 2 ^ 32) }
    ensures fault { result_err result ≡ line_fault file.now at start }
    ensures next { IfOk result (λ next. (next ≡ start + 12 * number file.now (at + 37) 2) × (next ≤ start + 786420)) }
{
    check_field(file, at, 1)?;
    let size = byte(file, at) as usize;
    if size > 32 {
        return Err(at);
    }
    check_field(file, at + 1, 32)?;
    check_bytes(file, at + 1, size, 33, 126)?;
    check_bytes(file, at + 1 + size, 32 - size, 0, 0)?;
    check_field(file, at + 33, 4)?;
    if number32_at(file, at + 33) as usize != start {
        return Err(at + 33);
    }
    check_field(file, at + 37, 6)?;
    Ok(start + 12 * number16_at(file, at + 37) as usize)
}

// Checks n lines from the first one on, and that the bodies end where the file does.
fn check_lines(file: &[u8], n: u8) -> Result<(), usize>
    ensures { result_err result ≡ lines_fault file.now 4 (4 + 43 * n) n }
{
    let mut start = 4 + 43 * n as usize;
    // The number is a line's, from which its place in the file follows.
    for line in 0..n {
        start = check_line(file, 4 + 43 * line as usize, start)?;
    }
    if file.len() != start {
        return Err(file.len().min(start));
    }
    Ok(())
}

// Checks a file: the error is its first fault.
#[tactic(auto, unfolding(crate::specs::Faults::fault))]
fn check(file: &[u8]) -> Result<(), usize>
    ensures { result_err result ≡ fault file.now }
{
    check_field(file, 0, 1)?;
    let n = byte(file, 0);
    if !(1..=16).contains(&n) {
        return Err(0);
    }
    check_field(file, 1, 2)?;
    check_field(file, 3, 1)?;
    if byte(file, 3) != 0 {
        return Err(3);
    }
    check_lines(file, n)
}

// The first fault of a file.
pub fn first_fault(file: &[u8]) -> Option<usize>
    ensures { result ≡ fault file.now }
{
    check(file).err()
}

// The first fault of a file, or else of a warrior number.
pub fn first_fault_at(file: &[u8], number: usize) -> Option<usize>
    ensures { result ≡ fault_at file.now number }
{
    first_fault(file).or_else(|| (byte(file, 0) as usize <= number).then_some(0))
}
