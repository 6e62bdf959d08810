// Plays a match file (01, 'Match file', `play`), and prints what came of it.
#![tactic(auto)]

ghost use Rattle.std.specs.Prelude.{◌≡◌, ◌≤◌, length};
ghost use Rattle.std.proofs.lemmas.List.Edits.{sets};
ghost use Rattle.battle.specs.Text.{printed};

use playing::play_file;
use printing::{TEXT_SIZE, put_refusal, put_run};

mod playing;

// Plays a match file: puts every byte that is to be printed at the start of the memory lent for it, and gives how many they are.
// No text is given back: there is no heap.
pub fn play(file: &[u8], out: &mut [u8; TEXT_SIZE]) -> usize
    ensures { (out.new ≡ sets out.old 0 (printed file.now)) × (result ≡ length (printed file.now)) × (result ≤ length out.new) }
{
    let mut core = [0; 8000];
    let mut queue = [0; 2000];
    match play_file(file, &mut core, &mut queue) {
        Ok(run) => put_run(out, run),
        Err(error) => put_refusal(out, Err(error)),
    }
}

// Plays a match file, and writes to standard output what is to be printed; whether all of it was taken. A bool, as `io::write_all` gives it: std's writing would add an assumed contract, of the call for the error's number.
pub fn print(file: &[u8]) -> bool {
    let mut text = [0; TEXT_SIZE];
    let length = play(file, &mut text);
    io::write_all(1, &text[..length])
}
