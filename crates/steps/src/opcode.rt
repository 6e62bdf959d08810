// What each opcode does with its registers (01, 'One step').
ghost use Rattle.std.specs.Prelude.{◌≡◌, true, cond, not, ◌&&◌, ◌||◌, ◌<◌, ◌≤◌, ◌/◌, ◌%◌, eqb, ltb};
ghost use Rattle.std.proofs.Math.Option.{some};
ghost use Rattle.offset.specs.Offset.{ahead};
ghost use Rattle.cell.specs.Cells.{packed, unpacked, sound_word, with_number};
ghost use Rattle.steps.specs.Inner.Acts.{copy_of, first_of, last_of, value_by, Answers, Does};

use crate::modifier::{Met, meet};
use crate::scene::Scene;
use offset::{Absolute, Relative, add, plus};
use types::field::Field;
use types::modifier::{F, I};
use types::opcode::{
    ADD, CMP, DAT, DIV, DJN, JMN, JMP, JMZ, LDP, MOD, MOV, MUL, NOP, SLT, SNE, SPL, STP, SUB,
};
use word::with_number_in;

// What an instruction answers: the next place, beside it the place of SPL's child, or how it ends; and the writes. With an error in place of the two endings a run takes 7 to 10 % more instructions, with the writes in a struct beside the places 2 to 3 %.
#[derive(Clone, Copy)]
pub(crate) enum Executed {
    Goes(Absolute, u64),
    Splits(Absolute, Absolute, u64),
    Dat(u64),
    DivideByZero(u64),
}

// A cell copied over another: opcode, modifier and numbers, not modes.
fn copy(to: u64, from: u64) -> u64
    ensures { result ≡ packed (copy_of (unpacked to) (unpacked from)) }
{
    from & 0x3fc0_ffff_ffff | ((to >> 32) & 0x3f) << 32
}

// The target word with a number in each target field, first pair first.
fn store(t: u64, t1: Field, n1: Relative, t2: Field, n2: Relative) -> u64
    ensures { result ≡ packed (with_number t2 n2.0 (with_number t1 n1.0 (unpacked t))) }
{
    with_number_in(with_number_in(t, t1, n1), t2, n2)
}

// ADD a+b, SUB b-a and MUL a×b of two numbers. The opcode is asked again here and in `part`, `tests` and `passes`: a function for each opcode would be a twin of its neighbours in all but one line.
fn value(opcode: u64, size: u32, a: Relative, b: Relative) -> Relative
    requires { (a.0 < size) × (b.0 < size) × (size ≤ 46341) × (2 ≤ opcode) × (opcode < 5) }
    ensures { (some result.0 ≡ value_by opcode size a.0 b.0) × (result.0 < size) }
{
    if opcode == ADD {
        return plus(a, b, size);
    }
    if opcode == SUB {
        return plus(b, Relative(size - a.0), size);
    }
    Relative(a.0 * b.0 % size)
}

// DIV a/b and MOD a mod b in a target field, which a zero b leaves.
fn part(opcode: u64, t: u64, field: Field, a: Relative, b: Relative) -> u64
    ensures { result ≡ cond (eqb b.0 0) t (packed (with_number field (cond (eqb opcode 5) (a.0 / b.0) (a.0 % b.0)) (unpacked t))) }
{
    if b.0 == 0 {
        return t;
    }
    if opcode == DIV {
        return with_number_in(t, field, Relative(a.0 / b.0));
    }
    with_number_in(t, field, Relative(a.0 % b.0))
}

// JMZ: whether some tested b is 0; JMN: whether some isn't.
fn tests(opcode: u64, b1: Relative, b2: Relative) -> bool
    ensures { result ≡ cond (eqb opcode 8) (eqb b1.0 0 || eqb b2.0 0) (not (eqb b1.0 0) || not (eqb b2.0 0)) }
{
    if opcode == JMZ {
        return (b1.0 == 0) | (b2.0 == 0);
    }
    (b1.0 != 0) | (b2.0 != 0)
}

// The target is lent, so an opcode that compares it, or may leave it as it is, asks for itself that it is sound.
impl Scene {
    // PC+1.
    fn onward(self) -> Absolute
        ensures { result.0 ≡ ahead self.size self.pc.0 1 }
    {
        add(self.pc, Relative(1), self.size)
    }

    // The numbers of both registers that meet.
    fn met(self) -> (Met, Met)
        ensures { (result.0 ≡ first_of self.modifier self.ra self.rb) × (result.1 ≡ last_of self.modifier self.ra self.rb) }
    {
        meet(self.modifier, self.ra, self.rb)
    }

    // MOV: a goes to the target; under I opcode and modifier do, too.
    fn moves(self, target: &mut u64) -> Executed
        ensures { Does 1 self target.old result target.new }
    {
        let next = self.onward();
        let t = *target;
        if self.modifier == I {
            *target = copy(t, self.ra);
            return Executed::Goes(next, self.writes + 1);
        }
        let (p, q) = self.met();
        *target = store(t, p.target, p.a, q.target, q.a);
        Executed::Goes(next, self.writes + 1)
    }

    // ADD, SUB and MUL.
    fn sums(self, opcode: u64, target: &mut u64) -> Executed
        requires { (2 ≤ opcode) × (opcode < 5) }
        ensures { Does opcode self target.old result target.new }
    {
        let next = self.onward();
        let (p, q) = self.met();
        let v1 = value(opcode, self.size, p.a, p.b);
        let t = *target;
        if self.modifier < F {
            *target = with_number_in(t, p.target, v1);
            return Executed::Goes(next, self.writes + 1);
        }
        let v2 = value(opcode, self.size, q.a, q.b);
        *target = store(t, p.target, v1, q.target, v2);
        Executed::Goes(next, self.writes + 1)
    }

    // DIV and MOD: a zero b ends the process, the other field is still written.
    fn divides(self, opcode: u64, target: &mut u64) -> Executed
        requires { (sound_word self.size target.old ≡ true) × (5 ≤ opcode) × (opcode < 7) }
        ensures { Does opcode self target.old result target.new }
    {
        let (p, q) = self.met();
        let b1 = p.b;
        let b2 = q.b;
        if (b1.0 == 0) & (b2.0 == 0) {
            return Executed::DivideByZero(self.writes);
        }
        let half = part(opcode, *target, p.target, p.a, b1);
        if self.modifier < F {
            *target = half;
            return Executed::Goes(self.onward(), self.writes + 1);
        }
        *target = part(opcode, half, q.target, q.a, b2);
        if (b1.0 == 0) | (b2.0 == 0) {
            return Executed::DivideByZero(self.writes + 1);
        }
        Executed::Goes(self.onward(), self.writes + 1)
    }

    // JMZ and JMN.
    fn jumps(self, opcode: u64) -> Executed
        requires { (8 ≤ opcode) × (opcode < 10) }
        ensures { Answers opcode self 0 result }
    {
        let (p, q) = self.met();
        if tests(opcode, p.b, q.b) {
            return Executed::Goes(self.jump, self.writes);
        }
        Executed::Goes(self.onward(), self.writes)
    }

    // DJN: stores b-1 and goes when some result isn't 0. The one less is 01's one reducing addition, of M-1, as SUB's difference is.
    fn counts(self, target: &mut u64) -> Executed
        ensures { Does 10 self target.old result target.new }
    {
        let t = *target;
        let (p, q) = self.met();
        let n1 = plus(p.b, Relative(self.size - 1), self.size);
        let n2 = plus(q.b, Relative(self.size - 1), self.size);
        *target = store(t, p.target, n1, q.target, n2);
        if (n1.0 != 0) | (n2.0 != 0) {
            return Executed::Goes(self.jump, self.writes + 1);
        }
        Executed::Goes(self.onward(), self.writes + 1)
    }

    // SLT: whether every a is below its b; SNE: whether one differs; CMP, SEQ: whether none does. Under I the A register is also compared whole with the live cell.
    fn passes(self, opcode: u64, live: u64) -> bool
        ensures { let p = first_of self.modifier self.ra self.rb in let q = last_of self.modifier self.ra self.rb in
            let same = eqb p.a.0 p.b.0 && eqb q.a.0 q.b.0 && (not (eqb self.modifier 6) || eqb self.ra live) in
            result ≡ cond (eqb opcode 14) (ltb p.a.0 p.b.0 && ltb q.a.0 q.b.0) (cond (eqb opcode 13) (not same) same) }
    {
        let (p, q) = self.met();
        if opcode == SLT {
            return (p.a.0 < p.b.0) & (q.a.0 < q.b.0);
        }
        let equal = (p.a.0 == p.b.0)
            & (q.a.0 == q.b.0)
            & ((self.modifier != I) | (self.ra == live));
        if opcode == SNE {
            return !equal;
        }
        equal
    }

    // CMP, SEQ, SNE and SLT: skip, or go on.
    fn skips(self, opcode: u64, live: u64) -> Executed
        requires { (sound_word self.size live ≡ true) × (11 ≤ opcode) × (opcode < 15) }
        ensures { Does opcode self live result live }
    {
        let next = self.onward();
        if self.passes(opcode, live) {
            return Executed::Goes(add(next, Relative(1), self.size), self.writes);
        }
        Executed::Goes(next, self.writes)
    }

    // The nineteen opcodes, after both operands. LDP and STP are refused before: the last two arms are never reached.
    pub(crate) fn act(self, opcode: u64, target: &mut u64) -> Executed
        requires { (sound_word self.size target.old ≡ true) × (opcode ≤ 16) }
        ensures { Does opcode self target.old result target.new }
    {
        match opcode {
            DAT => Executed::Dat(self.writes),
            MOV => self.moves(target),
            ADD..=MUL => self.sums(opcode, target),
            DIV..=MOD => self.divides(opcode, target),
            JMP => Executed::Goes(self.jump, self.writes),
            JMZ..=JMN => self.jumps(opcode),
            DJN => self.counts(target),
            CMP..=SLT => self.skips(opcode, *target),
            SPL => Executed::Splits(self.onward(), self.jump, self.writes),
            NOP => Executed::Goes(self.onward(), self.writes),
            LDP..=STP => Executed::Dat(self.writes),
            _ => Executed::Dat(self.writes),
        }
    }
}
