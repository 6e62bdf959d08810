// The refusal of the next step, found from the lent parts of a record before anything changes (01, 'One step').
#![tactic(auto)]

ghost use Rattle.std.specs.Prelude.{◌≡◌, true, [], ◌<◌, ◌≤◌, length};
ghost use Rattle.answer.specs.Numbers.{told};
ghost use Rattle.cell.specs.Cells.{sound_word};
ghost use Rattle.machine.specs.State.{first, verdict_told};
ghost use Rattle.machine.specs.Soundness.{valid_limits};
ghost use Rattle.machine.specs.Pointers.{site_at};
ghost use Rattle.lent.specs.Parts.{unnamed};
ghost use Rattle.address.specs.Inner.Operands.{Fetched};
ghost use Rattle.refusal.specs.Inner.Looking.{sound_both, left, sound_seen_at, former_sound, cell_checks};
ghost use Rattle.refusal.specs.Inner.Fronts.{Fronted};
ghost use Rattle.refusal.specs.Checks.{refused};

use address::{aim, decrement, field_of, increment, word_at};
use answer::{Answer, Error};
use cell::sound;
use entry::unpack;
use fold::unlimited;
use machine::limits::LAST_NUMBER;
use machine::{Entry, Processes, Rules};
use offset::{Absolute, add};
use soundness::{in_bounds, sound_front};
use types::field::{A, B};
use types::mode::{INDIRECT_A, POST_INC_INDIRECT_A, PRE_DEC_INDIRECT_A};
use types::opcode::NOP;
use word::{a_mode, b_mode, number, number_in, opcode, with_number_in};

// Whether both cells that an operand reads where both limits are M are sound: the one at its location, of which the word is given, and the one at its pointer.
fn look(core: &[u64], size: u32, location: Absolute, word: u64, mode: u64) -> bool
    requires { (length core.now ≡ size) × (location.0 < size) × (mode < 8) }
    ensures { result ≡ sound_both size core.now location.0 word mode }
{
    if !sound(word, size) {
        return false;
    }
    if mode < INDIRECT_A {
        return true;
    }
    let field = field_of(mode);
    let to = aim(size, mode, number_in(word, field));
    let pointer = add(location, to, size);
    let i = pointer.0 as usize;
    let there = core[i];
    sound(there, size)
}

// The word that an operand leaves at its location, of the sound one there.
// By chain's `lowered` and `raised`, which reduce the number of any word, a refusal takes 193 to 279 instructions, not 182 to 267.
fn changed(word: u64, size: u32, mode: u64) -> u64
    requires { (sound_word size word ≡ true) × (mode < 8) }
    ensures { result ≡ left size word mode }
{
    if mode < PRE_DEC_INDIRECT_A {
        return word;
    }
    let field = field_of(mode);
    let found = number_in(word, field);
    if mode < POST_INC_INDIRECT_A {
        return with_number_in(word, field, decrement(found, size));
    }
    with_number_in(word, field, increment(found, size))
}

// Whether the other cells that the instruction at PC reads are sound, where both limits are M. B goes by the word that A leaves, but a
// change of a number keeps a word sound: so the cell at B's pointer is read as it is.
// Beside chain's for speed: by that, which takes any limits, an outer step takes 32 to 40 % more instructions. It looks only: the instruction has operands of its own (`steps`).
fn whole_readable(core: &[u64], rules: Rules, pc: Absolute, here: u64) -> bool
    requires { Fetched rules core.now pc.0 here }
    ensures { result ≡ former_sound (site_at rules pc.0) core.now }
{
    let size = rules.size;
    let mode = a_mode(here);
    let location = add(pc, number(here, A), size);
    let at = location.0 as usize;
    let old = core[at];
    if !look(core, size, location, old, mode) {
        return false;
    }
    let word = changed(old, size, mode);
    let again = word_at(pc, here, location, word);
    let second = add(pc, number(again, B), size);
    let i = second.0 as usize;
    let there = core[i];
    let found = word_at(second, there, location, word);
    look(core, size, second, found, b_mode(here))
}

// Whether the other cells that the instruction at PC reads are sound.
fn readable(core: &[u64], rules: Rules, pc: Absolute, here: u64) -> bool
    requires { Fetched rules core.now pc.0 here × (valid_limits rules ≡ true) }
    ensures { result ≡ sound_seen_at (site_at rules pc.0) core.now }
{
    if unlimited(rules) {
        return whole_readable(core, rules, pc, here);
    }
    chain::readable(core, rules, pc)
}

// The refusal of the instruction at a place: 9, 10, 9.
fn cell_refusal(core: &[u64], rules: Rules, pc: Absolute) -> Answer
    requires { (rules.size ≤ 46341) × (length core.now ≡ rules.size) × (pc.0 < rules.size) × (valid_limits rules ≡ true) }
    ensures { told result ≡ verdict_told (first (cell_checks (site_at rules pc.0) core.now)) }
{
    let here = core[pc.0 as usize];
    if !sound(here, rules.size) {
        return Err(Error::UnsoundRecord);
    }
    if opcode(here) > NOP {
        return Err(Error::PrivateMemory);
    }
    if !readable(core, rules, pc, here) {
        return Err(Error::UnsoundRecord);
    }
    Ok(())
}

// The front entry, or its refusal: 7, 9, 8.
fn front(queue: &[u64], rules: Rules, held: u32, processes: &Processes) -> Result<Entry, Error>
    requires { processes.now.ring.head < length queue.now }
    ensures { Fronted (unnamed [] queue.now rules held processes.now) result }
{
    if processes.ring.length == 0 {
        return Err(Error::NoRemainingProcesses);
    }
    let w = queue[processes.ring.head as usize];
    if !sound_front(w, rules, held, processes) {
        return Err(Error::UnsoundRecord);
    }
    let e = unpack(w);
    if processes.steps == LAST_NUMBER || processes.threads[e.name as usize] == LAST_NUMBER {
        return Err(Error::NumbersExhausted);
    }
    Ok(e)
}

// The refusal of the next step, 0 for none. The parts are lent one by one, as a run has them: a struct of them would be made anew at each step.
pub fn refusal(
    core: &[u64],
    queue: &[u64],
    rules: Rules,
    held: u32,
    processes: &Processes,
) -> Answer
    ensures { told result ≡ refused (unnamed core.now queue.now rules held processes.now) }
{
    if !in_bounds(core, queue, rules, processes.ring) {
        return Err(Error::UnsoundRecord);
    }
    let e = front(queue, rules, held, processes)?;
    cell_refusal(core, rules, e.place)
}
