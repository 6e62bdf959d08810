// One instruction that is not refused: operands and execution (01, 'Pointers', 'One step'; 02, A.2).
ghost use Rattle.std.specs.Prelude.{◌≡◌, length};
ghost use Rattle.machine.specs.Pointers.{site_at};
ghost use Rattle.machine.specs.Instruction.{b_operand, effect_at, core_at, written_at};
ghost use Rattle.machine.specs.Whole.{Unlimited};
ghost use Rattle.chain.specs.Operands.{operands_at};
ghost use Rattle.steps.specs.Inner.Instruction.{Executable, answered};

use crate::modifier::modifier;
use crate::opcode::Executed;
use crate::operand::{changes, one_operand};
use crate::scene::Scene;
use chain::{Operands, evaluate};
use fold::unlimited;
use machine::Rules;
use offset::Absolute;
use types::field::{A, B};
use word::{a_mode, b_mode, number, opcode};

// Both operands of the cell at PC, where both limits are M. `Executable` is asked at each call: the core is lent as plain numbers, and a type with that fact would be made anew at each step. By `evaluate`, which takes any limits, a step of a run takes 2.5 to 3.1 times as many instructions.
fn whole_operands(core: &mut [u64], rules: Rules, pc: Absolute, here: u64) -> Operands
    requires { Executable rules core.old pc.0 here × Unlimited rules }
    ensures { (result ≡ operands_at (site_at rules pc.0) core.old) × (core.new ≡ (b_operand (site_at rules pc.0) core.old).core) }
{
    let n = number(here, A);
    let a = one_operand(core, rules, pc, a_mode(here), n);
    let again = core[pc.0 as usize];
    let m = number(again, B);
    let b = one_operand(core, rules, pc, b_mode(here), m);
    Operands {
        jump: a.pointer,
        ra: a.register,
        target: b.pointer,
        rb: b.register,
    }
}

// Both operands of the cell at PC.
fn operands(core: &mut [u64], rules: Rules, pc: Absolute, here: u64) -> Operands
    requires { Executable rules core.old pc.0 here }
    ensures { (result ≡ operands_at (site_at rules pc.0) core.old) × (core.new ≡ (b_operand (site_at rules pc.0) core.old).core) }
{
    if unlimited(rules) {
        return whole_operands(core, rules, pc, here);
    }
    evaluate(core, rules, pc)
}

// Executes the cell at PC.
pub(crate) fn execute(core: &mut [u64], rules: Rules, pc: Absolute, here: u64) -> Executed
    requires { Executable rules core.old pc.0 here }
    ensures { (result ≡ answered (effect_at (site_at rules pc.0) core.old).next (length (written_at (site_at rules pc.0) core.old)))
        × (core.new ≡ core_at (site_at rules pc.0) core.old) }
{
    let o = operands(core, rules, pc, here);
    let writes = changes(a_mode(here)) + changes(b_mode(here));
    let scene = Scene {
        size: rules.size,
        modifier: modifier(here),
        pc,
        jump: o.jump,
        ra: o.ra,
        rb: o.rb,
        writes,
    };
    let target = &mut core[o.target.0 as usize];
    scene.act(opcode(here), target)
}
