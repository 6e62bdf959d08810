// The operands of an instruction under read and write limits (02, A.2): each has a chain to its read pointer and one to its write pointer.
#![tactic(auto)]

ghost use Rattle.std.specs.Prelude.{◌≡◌, cond, ◌&&◌, [], ◌∷◌, ◌<◌, length, get_or, set};
ghost use Rattle.laws.specs.Lists.{every};
ghost use Rattle.cell.specs.Cells.{unpacked, sound_word};
ghost use Rattle.machine.specs.Pointers as spec;
ghost use Rattle.machine.specs.Instruction.{b_operand, seen_at};
ghost use Rattle.chain.specs.Operands.{is_place, compares, operands_at, nothing};
ghost use Rattle.chain.specs.Inner.Chains.{Placed, word_before, word_after, pointer_by, chains_of};

use address::{field_of, word_at};
use cell::sound;
use fold::{fold, fold_sum};
use machine::Rules;
use offset::{Absolute, Relative, add, plus, within};
use types::field::{A, B};
use types::mode::{IMMEDIATE, INDIRECT_A, POST_INC_INDIRECT_A, PRE_DEC_INDIRECT_A};
use types::opcode::{CMP, SLT};
use word::{a_mode, b_mode, number, number_in, opcode, with_number_in};

// Where the A operand reads, the register there; where the B operand is compared or stored to, and its register.
#[derive(Clone, Copy)]
pub struct Operands {
    pub jump: Absolute,
    pub ra: u64,
    pub target: Absolute,
    pub rb: u64,
}

// Both pointers of an operand and its write location; the words at the read location, the write location, the read pointer and
// the write pointer, and the word left at the write location.
#[derive(Clone, Copy)]
struct Chains {
    pub read: Absolute,
    pub write: Absolute,
    pub location: Absolute,
    pub near: u64,
    pub old: u64,
    pub register: u64,
    pub there: u64,
    pub left: u64,
}

// The word at a place of the core that has another word at one place. Apart from `address::word_at`, which is handed both words: here the core is read only where the place is not the other one.
fn word_in(core: &[u64], place: Absolute, at: Absolute, word: u64) -> u64
    requires { place.0 < length core.now }
    ensures { result ≡ get_or (set core.now at.0 word) place.0 0 }
{
    if place.0 == at.0 {
        return word;
    }
    let i = place.0 as usize;
    core[i]
}

// The word at the write location once the decrement is made. Apart from `raised`, as chains are followed between the two; refusal's `changed` has both, of a sound word alone.
fn lowered(w: u64, size: u32, mode: u64) -> u64
    requires { (0 < size) × (mode < 8) }
    ensures { result ≡ word_before (get_or spec.shifts mode spec.keeps) size w (spec.field_of (get_or spec.reaches mode spec.here)) }
{
    if mode < PRE_DEC_INDIRECT_A {
        return w;
    }
    if mode < POST_INC_INDIRECT_A {
        let field = field_of(mode);
        return with_number_in(
            w,
            field,
            plus(number_in(w, field), Relative(size - 1), size),
        );
    }
    w
}

// The word at the write location once the increment is made. That the core has cells is asked, here and below: the callers' `is_place` tells it.
fn raised(w: u64, size: u32, mode: u64) -> u64
    requires { (0 < size) × (mode < 8) }
    ensures { result ≡ word_after (get_or spec.shifts mode spec.keeps) size w (spec.field_of (get_or spec.reaches mode spec.here)) }
{
    if mode < POST_INC_INDIRECT_A {
        return w;
    }
    let field = field_of(mode);
    with_number_in(w, field, plus(number_in(w, field), Relative(1), size))
}

// The end of a chain, of the number folded and the word at its location.
fn pointer(pc: Absolute, mode: u64, folded: Relative, w: u64, limit: u32, size: u32) -> Absolute
    requires { (0 < size) × (0 < limit) × (mode < 8) }
    ensures { result.0 ≡ pointer_by (get_or spec.reaches mode spec.here) size limit pc.0 folded.0 w }
{
    if mode == IMMEDIATE {
        return pc;
    }
    if mode < INDIRECT_A {
        return add(pc, folded, size);
    }
    let found = number_in(w, field_of(mode));
    add(pc, fold_sum(folded, found, limit, size), size)
}

// Follows both chains of an operand, in the core that has another word at one place. A mode is a number below 8, asked here and of what is called: as a struct with that invariant it takes 11 lines more, and no fewer proofs. Rules and PC stay apart too: in one struct they take 11 lines and longer contracts, for one parameter fewer here and in `pointer`.
fn follow(
    core: &[u64],
    rules: Rules,
    pc: Absolute,
    mode: u64,
    n: Relative,
    at: Absolute,
    word: u64,
) -> Chains
    requires { Placed rules core.now pc.0 × (mode < 8) }
    ensures { result ≡ chains_of (spec.site_at rules pc.0) (set core.now at.0 word) mode n.0 }
{
    let size = rules.size;
    let far = fold(n, rules.write, size);
    let location = add(pc, far, size);
    let old = word_in(core, location, at, word);
    let low = lowered(old, size, mode);
    let close = fold(n, rules.read, size);
    let other = add(pc, close, size);
    let near = word_in(core, other, at, word);
    let found = word_at(other, near, location, low);
    let read = pointer(pc, mode, close, found, rules.read, size);
    let write = pointer(pc, mode, far, low, rules.write, size);
    let register = word_at(read, word_in(core, read, at, word), location, low);
    let there = word_at(write, word_in(core, write, at, word), location, low);
    Chains {
        read,
        write,
        location,
        near,
        old,
        register,
        there,
        left: raised(low, size, mode),
    }
}

// Whether the four words that an operand reads are sound.
fn sound_chains(c: Chains, size: u32) -> bool
    ensures { result ≡ every (sound_word size) (c.near ∷ c.old ∷ c.register ∷ c.there ∷ []) }
{
    sound(c.near, size) & sound(c.old, size) & sound(c.register, size) & sound(c.there, size)
}

// Whether the core has M cells, PC is one of them, and no limit is 0. That is all that keeps the chains inside the core: fewer tests than a header's.
fn is_place(core: &[u64], rules: Rules, pc: Absolute) -> bool
    ensures { result ≡ is_place rules core.now pc.0 }
{
    (core.len() == rules.size as usize)
        & within(pc, rules.size)
        & (1 <= rules.read)
        & (1 <= rules.write)
}

// Whether the other cells that the instruction at PC reads are sound. B goes by the word that A leaves; nothing is written.
pub fn readable(core: &[u64], rules: Rules, pc: Absolute) -> bool
    ensures { result ≡ (is_place rules core.now pc.0 && every (sound_word rules.size) (seen_at (spec.site_at rules pc.0) core.now)) }
{
    if !is_place(core, rules, pc) {
        return false;
    }
    let here = core[pc.0 as usize];
    let a = follow(core, rules, pc, a_mode(here), number(here, A), pc, here);
    let location = a.location;
    let left = a.left;
    if !sound_chains(a, rules.size) {
        return false;
    }
    let again = word_at(pc, here, location, left);
    let b = follow(
        core,
        rules,
        pc,
        b_mode(here),
        number(again, B),
        location,
        left,
    );
    sound_chains(b, rules.size)
}

// Where B meets the instruction: a comparison looks at the read pointer, everything else stores at the write pointer.
fn met(here: u64, read: Absolute, write: Absolute) -> Absolute
    ensures { result ≡ cond (compares (unpacked here).opcode) read write }
{
    let op = opcode(here);
    if (CMP <= op) & (op < SLT) {
        return read;
    }
    write
}

// Evaluates both operands of the instruction at PC: the A operand's change is made, then the B operand's. Zeros where PC is no place: a step has one always, and an Option would be unwrapped there.
// The operands are followed here and in `readable`: with both chains from one function, written in or called, a run takes 8 to 15 % more instructions, and 4 to 5 % with limits of 2,000.
pub fn evaluate(core: &mut [u64], rules: Rules, pc: Absolute) -> Operands
    ensures { (result ≡ cond (is_place rules core.old pc.0) (operands_at (spec.site_at rules pc.0) core.old) nothing)
        × (core.new ≡ cond (is_place rules core.old pc.0) (b_operand (spec.site_at rules pc.0) core.old).core core.old) }
{
    if !is_place(core, rules, pc) {
        return Operands {
            jump: Absolute(0),
            ra: 0,
            target: Absolute(0),
            rb: 0,
        };
    }
    let i = pc.0 as usize;
    let here = core[i];
    let a = follow(core, rules, pc, a_mode(here), number(here, A), pc, here);
    let jump = a.read;
    let location = a.location;
    let first = location.0 as usize;
    core[first] = a.left;
    let again = core[i];
    let b = follow(core, rules, pc, b_mode(here), number(again, B), pc, again);
    let read = b.read;
    let write = b.write;
    let after = b.location;
    let second = after.0 as usize;
    core[second] = b.left;
    Operands {
        jump,
        ra: a.register,
        target: met(here, read, write),
        rb: b.register,
    }
}
