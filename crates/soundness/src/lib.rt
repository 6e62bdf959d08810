// The tests of a lent record: its header, and the front entry (01, 'What a call gives back'; 02, A.2 and A.4).
#![tactic(auto)]

ghost use Rattle.std.specs.Prelude.{◌≡◌, [], ◌+◌, ◌-◌, ◌≤◌, ◌<◌, ◌&&◌, eqb, leb, min, length, get_or, take, drop};
ghost use Rattle.laws.specs.Lists.{every, tally, table, total, same, distinct};
ghost use Rattle.metadata.specs.Metadata.{valid_byte};
ghost use Rattle.machine.specs.Names.{name_at, names};
ghost use Rattle.machine.specs.Soundness.{sound_header, sound_entry};
ghost use Rattle.lent.specs.Parts.{names_of, header_of, parts, valid_length};
ghost use Rattle.soundness.specs.Bounds.{bounded};
ghost use Rattle.soundness.specs.Inner.Keys.{key_of, Keyed, times_in};

use encoding::{byte, number32};
use entry::unpack;
use fold::valid_limits;
use machine::limits::{LARGEST_CORE, MOST_ENTRIES, MOST_NAMES};
use machine::{Processes, Ring, Roster, Rules};
use names::{equal, name_at};
use offset::within;

// Whether the bytes of the name that starts there are valid. All 32 are looked at, without an early end, which the compiler turns into vector code; a file's bytes are looked at for the position of a wrong one.
fn bytes_valid(bytes: &[u8; 512], start: usize, size: usize) -> bool
    requires { (start + 32 ≤ 512) × (size ≤ 32) }
    ensures { result ≡ every valid_byte (take size (drop start bytes.now)) }
{
    let mut valid = true;
    for (j, b) in bytes[start..start + 32].iter().enumerate() {
        valid &= (size <= j) | ((33 <= *b) & (*b <= 126));
    }
    valid
}

// Whether a name has 1 to 32 bytes, all of them valid. A name is told by its index, here and below: it is a part of two arrays. `metadata::valid_name` takes an empty name, too.
fn name_valid(names: &Roster, i: usize) -> bool
    requires { i < 16 }
    ensures { result ≡ (valid_length (get_or names.now.lengths i 0) && every valid_byte (name_at names.now i)) }
{
    let size = names.lengths[i];
    (1..=32).contains(&size) && bytes_valid(&names.bytes, 32 * i, size as usize)
}

// How many names are held, of at most 16: C lends any header. By the smaller of the two the compiler knows that each has a slot.
fn held(names: &Roster) -> usize
    ensures { result ≡ min names.now.held 16 }
{
    names.held.min(MOST_NAMES) as usize
}

// Whether each name held is valid. How many there are is told by a part of their lengths: of an array behind a reference the check has no length.
fn names_valid(names: &Roster) -> bool
    ensures { let n = min names.now.held 16 in
        result ≡ (every valid_length (take n names.now.lengths) && every (every valid_byte) (table (name_at names.now) 0 n)) }
{
    let lengths = &names.lengths[..held(names)];
    (0..lengths.len()).all(|i| name_valid(names, i))
}

// The key of a name: its length, and its first byte, the last but one and the last.
fn key_of(name: &[u8]) -> u32
    ensures { result ≡ key_of name.now }
{
    let n = name.len();
    let first = byte(name, 0);
    if n < 2 {
        return number32(n as u8, first, 0, first);
    }
    let size = (n % 256) as u8;
    number32(size, first, byte(name, n - 2), byte(name, n - 1))
}

// The key of each name held. That no more than 16 are is asked here and below: `held` is handed on.
fn keys_of(names: &Roster, held: usize) -> [u32; 16]
    requires { held ≤ 16 }
    ensures { Keyed names.now result held }
{
    let mut keys: [u32; 16] = [0; 16];
    // By `array::from_fn` a header of 2 names takes 476 instructions, not 350; of an enumerated `iter_mut` the checker knows no writes.
    for i in 0..held {
        keys[i] = key_of(name_at(names, i));
    }
    keys
}

// How many of the keys are this one.
fn times(keys: &[u32; 16], key: u32) -> u32
    ensures { result ≡ times_in keys.now key }
{
    keys.iter().map(|k| (*k == key) as u32).sum()
}

// Whether a name is unlike those held after it: where its key stands once, no bytes are compared.
fn is_unlike(names: &Roster, keys: &[u32; 16], i: usize, held: usize) -> bool
    requires { Keyed names.now keys.now held × (i < held) × (held ≤ 16) }
    ensures { result ≡ eqb (tally (same (name_at names.now i)) (table (name_at names.now) (i + 1) (held - (i + 1)))) 0 }
{
    if times(keys, keys[i]) == 1 {
        return true;
    }
    let name = name_at(names, i);
    (i + 1..held).all(|j| !equal(name, name_at(names, j)))
}

// Whether no two names held are alike.
fn names_distinct(names: &Roster) -> bool
    ensures { result ≡ distinct (table (name_at names.now) 0 (min names.now.held 16)) }
{
    let held = held(names);
    if held < 2 {
        return true;
    }
    let keys = keys_of(names, held);
    (0..held).all(|i| is_unlike(names, &keys, i, held))
}

// Whether the counts of at most 16 names sum to so many entries, none of them over P. A loop, and one for both: by `map` and `sum` the sum alone took 6 instructions more with the header of an imp, of 151.
fn counts_sound(counts: &[u32], entries: u32, limit: u32) -> bool
    requires { length counts.now ≤ 16 }
    ensures { result ≡ (eqb (total counts.now) entries && every (λ c. leb c limit) counts.now) }
{
    let mut sum: u64 = 0;
    let mut most: u32 = 0;
    for count in counts {
        sum += *count as u64;
        most = most.max(*count);
    }
    (sum == entries as u64) & (most <= limit)
}

// Whether M, the limits, P and the memories' lengths are such as fresh takes, and the head lies in the queue memory: row by row, so `queue::headed`, which has two of the rows, is not asked, nor `fold::valid_processes`: that there is a slot and that P is at most 4,095 follows from the other rows.
pub fn in_bounds(core: &[u64], queue: &[u64], rules: Rules, ring: Ring) -> bool
    ensures { result ≡ bounded core.now queue.now rules ring.head }
{
    let slots = queue.len();
    let limits = valid_limits(rules);
    (1 <= rules.size)
        & (rules.size <= LARGEST_CORE)
        & (rules.size as usize == core.len())
        & (1 <= rules.processes)
        & (16 * rules.processes as usize <= slots)
        & (slots <= MOST_ENTRIES)
        & limits
        & ((ring.head as usize) < slots)
}

// Whether a header is sound beside the core's and the queue's memory; its parts are lent as placing, starting and a run have them. That the length is at most the queue memory's entries follows: at most 16 counts, none over P, sum to it.
pub fn sound_header(
    core: &[u64],
    queue: &[u64],
    rules: Rules,
    names: &Roster,
    processes: &Processes,
) -> bool
    ensures { result ≡ sound_header (parts core.now queue.now rules names.now processes.now) }
{
    let ring = processes.ring;
    let numbers = in_bounds(core, queue, rules, ring) & (names.held <= MOST_NAMES);
    if !numbers {
        return false;
    }
    // Before the names, so that less is kept meanwhile: an outer step takes 3 instructions fewer.
    let counts = &processes.counts[..held(names)];
    if !counts_sound(counts, ring.length, rules.processes) {
        return false;
    }
    if !names_valid(names) {
        return false;
    }
    names_distinct(names)
}

// Whether a front entry is sound.
pub fn sound_front(w: u64, rules: Rules, held: u32, processes: &Processes) -> bool
    ensures { result ≡ sound_entry (header_of rules (names_of held [] []) processes.now) w }
{
    let e = unpack(w);
    let name = e.name as usize;
    let count = processes.counts[name];
    (name < held as usize) & (1 <= count) & within(e.place, rules.size) & (w >> 52 == 0)
}
