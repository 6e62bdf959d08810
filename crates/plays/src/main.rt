// Plays one match file after another as `play` does: standard input has each file's length in three bytes, little-endian, and then the file.
#![tactic(auto)]

use battle::print;
use memory::file_memory;

// Reads a length and a file, and plays it where it fits into the memory; whether there was a length, which is the loop's test. By `io::read_full`: std's reading would add an assumed contract, of the call for the error's number.
fn play_next() -> bool {
    let mut head = [0u8; 3];
    if io::read_full(0, &mut head) < head.len() {
        return false;
    }
    let [low, middle, high] = head;
    let length = u32::from_le_bytes([low, middle, high, 0]) as usize;
    let mut memory = file_memory();
    if let Some(file) = memory.get_mut(..length) {
        let n = io::read_full(0, file);
        print(&file[..n]);
    }
    true
}

// At most 10,000 files: the loop must end by itself, and how many there are is not said.
fn main() {
    for _ in 0..10000 {
        if !play_next() {
            return;
        }
    }
}
