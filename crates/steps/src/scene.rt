// What an opcode works on, once both operands are evaluated (01, 'One step').
ghost use Rattle.steps.specs.Inner.Scenes.{SoundScene};

use offset::Absolute;

// The core's size, the instruction's modifier, PC, where the A operand points, both registers, and the writes made so far. The modifier is its number, the row of a table.
#[derive(Clone, Copy)]
pub(crate) struct Scene {
    pub size: u32,
    pub modifier: u8,
    pub pc: Absolute,
    pub jump: Absolute,
    pub ra: u64,
    pub rb: u64,
    pub writes: u64,
    ghost sound: { SoundScene size modifier pc.0 ra rb writes },
}
