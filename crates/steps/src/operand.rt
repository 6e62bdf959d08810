// Operands of an instruction that is not refused, where both limits are M: where they point, and the cells that they read and change (01, 'Pointers').
ghost use Rattle.std.specs.Prelude.{◌≡◌, true, ◌<◌, ◌≤◌, length, get_or};
ghost use Rattle.cell.specs.Cells.{sound_word};
ghost use Rattle.machine.specs.Pointers as spec;
ghost use Rattle.machine.specs.Whole.{former};
ghost use Rattle.address.specs.Inner.Operands.{Ready, sound_seen};
ghost use Rattle.steps.specs.Inner.Instruction.{operand_of};

use address::{aim, field_of, increment};
use machine::Rules;
use offset::{Absolute, Relative, add};
use types::mode::{IMMEDIATE, INDIRECT_A, POST_INC_INDIRECT_A, PRE_DEC_INDIRECT_A};
use word::{number_in, with_number_in};

// An operand: its pointer and a copy of the cell there.
#[derive(Clone, Copy)]
pub(crate) struct Operand {
    pub pointer: Absolute,
    pub register: u64,
}

// The modes `#` and `$`, which need no second look at the pointer's cell. `Ready` is asked at each call: it binds the lent core to the rules, and a type that held both would be made anew at each operand.
fn direct(core: &[u64], rules: Rules, pc: Absolute, mode: u64, n: Relative) -> Operand
    requires { Ready rules core.now pc.0 n.0 × (mode < 2) × (sound_word rules.size (get_or core.now pc.0 0) ≡ true)
        × (sound_seen rules.size (former (spec.site_at rules pc.0) core.now mode n.0) ≡ true) }
    ensures { (result ≡ operand_of (former (spec.site_at rules pc.0) core.now mode n.0))
        × (core.now ≡ (former (spec.site_at rules pc.0) core.now mode n.0).core) }
{
    if mode == IMMEDIATE {
        let at = pc.0 as usize;
        let here = core[at];
        return Operand {
            pointer: pc,
            register: here,
        };
    }
    let location = add(pc, n, rules.size);
    let at = location.0 as usize;
    let there = core[at];
    Operand {
        pointer: location,
        register: there,
    }
}

// The six modes that go through the A number (even) or the B number (odd) of the cell at the location.
fn indirect(core: &mut [u64], rules: Rules, pc: Absolute, mode: u64, n: Relative) -> Operand
    requires { Ready rules core.old pc.0 n.0 × (2 ≤ mode) × (mode < 8)
        × (sound_seen rules.size (former (spec.site_at rules pc.0) core.old mode n.0) ≡ true) }
    ensures { (result ≡ operand_of (former (spec.site_at rules pc.0) core.old mode n.0))
        × (core.new ≡ (former (spec.site_at rules pc.0) core.old mode n.0).core) }
{
    let size = rules.size;
    let location = add(pc, n, size);
    let at = location.0 as usize;
    let old = core[at];
    let field = field_of(mode);
    let found = number_in(old, field);
    let to = aim(size, mode, found);
    let pointer = add(location, to, size);
    let there = pointer.0 as usize;
    if mode < PRE_DEC_INDIRECT_A {
        let cell = core[there];
        return Operand {
            pointer,
            register: cell,
        };
    }
    if mode < POST_INC_INDIRECT_A {
        core[at] = with_number_in(old, field, to);
        let register = core[there];
        return Operand { pointer, register };
    }
    let register = core[there];
    core[at] = with_number_in(old, field, increment(found, size));
    Operand { pointer, register }
}

// The operand of a mode and a number, which are those of the cell at PC. Written into its caller twice: called there, a run takes 9 to 20 % more instructions.
#[inline(always)]
pub(crate) fn one_operand(
    core: &mut [u64],
    rules: Rules,
    pc: Absolute,
    mode: u64,
    n: Relative,
) -> Operand
    requires { Ready rules core.old pc.0 n.0 × (mode < 8) × (sound_word rules.size (get_or core.old pc.0 0) ≡ true)
        × (sound_seen rules.size (former (spec.site_at rules pc.0) core.old mode n.0) ≡ true) }
    ensures { (result ≡ operand_of (former (spec.site_at rules pc.0) core.old mode n.0))
        × (core.new ≡ (former (spec.site_at rules pc.0) core.old mode n.0).core) }
{
    if mode < INDIRECT_A {
        return direct(core, rules, pc, mode, n);
    }
    indirect(core, rules, pc, mode, n)
}

// The writes of an operand in a mode: one for `{`, `<`, `}` and `>`.
pub(crate) fn changes(mode: u64) -> u64
    requires { mode < 8 }
    ensures { result ≡ length (spec.shifted (get_or spec.shifts mode spec.keeps) 0) }
{
    mode >> 2
}
