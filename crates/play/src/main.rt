// The program `play` (01, 'Match file'): a match file on standard input, what came of it on standard output; a line on standard error where either fails.
#![tactic(auto)]

use battle::print;
use memory::{file_memory, read_into};

fn main(rt: HostRuntime) {
    let mut file = file_memory();
    let Ok(length) = read_into(&mut rt.stdin(), &mut file) else {
        let _ = eprintln!(rt; "play: standard input cannot be read");
        return;
    };
    if !print(&file[..length]) {
        let _ = eprintln!(rt; "play: standard output takes no more");
    }
}
