// One scan of a lent record: whether it is sound all through, and no counter comes to its end within the steps to go.
#![tactic(auto)]

ghost use Rattle.std.specs.Prelude.{◌≡◌, ◌&&◌, [], ◌<◌, ◌≤◌, length};
ghost use Rattle.laws.specs.Lists.{every};
ghost use Rattle.cell.specs.Cells.{sound_word};
ghost use Rattle.lent.specs.Parts.{unnamed};
ghost use Rattle.scan.specs.Scanning.{sound_entries, tallied, lasting, scanned};

use cell::sound;
use entry::unpack;
use machine::limits::{LAST_NUMBER, MOST_NAMES};
use machine::{Processes, Rules};
use offset::ahead;
use queue::headed;
use soundness::sound_front;

// Whether every cell is sound. A cell like the one before it needs no second look.
fn cells_sound(core: &[u64], size: u32) -> bool
    ensures { result ≡ every (sound_word size) core.now }
{
    if core.is_empty() {
        return true;
    }
    let mut last = core[0];
    if !sound(last, size) {
        return false;
    }
    for w in core {
        if *w != last {
            if !sound(*w, size) {
                return false;
            }
            last = *w;
        }
    }
    true
}

// Whether a counter that rises by one a step is below its end before each of so many steps.
fn lasts(n: u32, steps: u64) -> bool
    ensures { result ≡ lasting steps n }
{
    let room = (LAST_NUMBER - n) as u64;
    steps <= room
}

// The same of each of these counters.
fn all_last(numbers: &[u32], steps: u64) -> bool
    ensures { result ≡ every (lasting steps) numbers.now }
{
    numbers.iter().all(|n| lasts(*n, steps))
}

// Whether every queued entry is sound, and each held name's count is the number of its entries. That the ring lies in its memory is asked: `scan` tests it once.
fn entries_tallied(queue: &[u64], rules: Rules, held: u32, processes: &Processes) -> bool
    requires { (length queue.now ≤ 65535) × (processes.now.ring.head < length queue.now) × (held ≤ 16) }
    ensures { result ≡ (sound_entries (unnamed [] queue.now rules held processes.now)
        && tallied (unnamed [] queue.now rules held processes.now)) }
{
    let slots = queue.len() as u32;
    let mut tallies: [u32; 16] = [0; 16];
    let mut slot = processes.ring.head;
    // The ring may be any: one that is longer than its memory goes round more than once, as the memory's two slices joined would not.
    for _i in 0..processes.ring.length {
        let w = queue[slot as usize];
        if !sound_front(w, rules, held, processes) {
            return false;
        }
        let who = unpack(w).name as usize;
        tallies[who] += 1;
        slot = ahead(slot, 1, slots);
    }
    let n = held as usize;
    processes.counts[..n] == tallies[..n]
}

// Whether every cell and every queued entry is sound, each held name's count is the number of its entries, and no counter comes to its end within so many steps. The parts are lent one by one, as to `refusal::refusal`.
pub fn scan(
    core: &[u64],
    queue: &[u64],
    rules: Rules,
    held: u32,
    processes: &Processes,
    steps: u64,
) -> bool
    ensures { result ≡ scanned steps (unnamed core.now queue.now rules held processes.now) }
{
    let fits = headed(queue, processes) & (held <= MOST_NAMES);
    if !fits {
        return false;
    }
    if !lasts(processes.steps, steps) {
        return false;
    }
    if !all_last(&processes.threads, steps) {
        return false;
    }
    if !entries_tallied(queue, rules, held, processes) {
        return false;
    }
    cells_sound(core, rules.size)
}
