// Memory for a match file, and input read into memory (01, 'Match file').
#![tactic(auto)]

ghost use Rattle.std.specs.Prelude.{◌≡◌, ◌<◌, ◌≤◌, replicate, length, take, IfOk};
ghost use Rattle.std.specs.Io.KnownBytes.{Consumes, IsAtEnd};

use std::io::{Read, Result};

// The most bytes of a match file.
pub const LONGEST_FILE: usize = 32768;

// N zeros. A program calls this where N is so large that the check cannot work out the array.
pub fn zeros<const N: usize>() -> [u8; N]
    ensures { result ≡ replicate N 0 }
{
    [0; N]
}

// Memory for a file, and one byte more, which tells a file that is too long.
pub fn file_memory() -> [u8; LONGEST_FILE + 1]
    ensures { result ≡ replicate 32769 0 }
{
    zeros()
}

// Reads until the memory is full or the input ends, and gives how many bytes were read, which stand at the memory's start. Where a read fails, how many came before it is not told. Of std's calls `read_exact` gives no number, and `read_to_end` needs a heap.
pub fn read_into<R: Read>(input: &mut R, memory: &mut [u8]) -> Result<usize>
    ensures within { IfOk result (λ n. n ≤ length memory.new) }
    ensures bytes { IfOk result (λ n. Consumes (R.remaining input.old) (R.remaining input.new) (take n memory.new)) }
    ensures end { IfOk result (λ n. n < length memory.new → IsAtEnd (R.remaining input.new)) }
{
    let mut filled = 0;
    while filled < memory.len() {
        let n = input.read(&mut memory[filled..])?;
        if n == 0 {
            break;
        }
        filled += n;
    }
    Ok(filled)
}
