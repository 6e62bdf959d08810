// Loads every warrior of a match file and runs it (01, 'Match file', `play`; 02, A.4).
ghost use Rattle.std.specs.Prelude.{◌≡◌, ◌≤◌, IfOk, length};
ghost use Rattle.machine.specs.Fresh as begins;
ghost use Rattle.battle.specs.Match as spec;
ghost use Rattle.battle.specs.Inner.Given.{result_of};

use answer::Error;
use cycle::run;
use fold::of_size;
use machine::{Outcome, Rules};
use match_file::read;
use match_load::load_match;
use memory::LONGEST_FILE;
use sim::fresh;

// The process limit of each name.
const PROCESSES: u32 = 125;

// The warriors of a file are loaded into a core of its size, and run with no ceiling given; or an error before the run.
fn play_loaded(
    file: &[u8],
    rules: Rules,
    core: &mut [u64],
    queue: &mut [u64],
) -> Result<Outcome, Error>
    ensures comes { result_of result ≡ spec.after_fresh file.now (begins.fresh rules core.old queue.old) }
    ensures few { IfOk result (λ run. run.header.names.held ≤ 16) }
{
    let made = fresh(rules, core, queue);
    made.answer?;
    let loaded = load_match(core, queue, made.header, file).outcome;
    loaded.answer?;
    Ok(run(core, queue, loaded.header, None))
}

// Plays a file, with memory for 8,000 cells and 2,000 queue entries, 16 times the process limit.
pub(crate) fn play_file(file: &[u8], core: &mut [u64], queue: &mut [u64]) -> Result<Outcome, Error>
    requires { (length core.old ≡ 8000) × (length queue.old ≡ 2000) }
    ensures comes { result_of result ≡ spec.result file.now }
    ensures few { IfOk result (λ run. run.header.names.held ≤ 16) }
{
    if file.len() > LONGEST_FILE {
        return Err(Error::Malformed(LONGEST_FILE));
    }
    let contents = read(file)?;
    if contents.size as usize > core.len() {
        return Err(Error::InvalidCoreSize);
    }
    let lent = &mut core[..contents.size as usize];
    play_loaded(file, of_size(contents.size, PROCESSES), lent, queue)
}
