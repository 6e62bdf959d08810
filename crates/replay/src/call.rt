// The calls of a recorded battle.
ghost use Rattle.std.specs.Prelude.{◌≤◌, length};

use crate::input::Input;
use cycle::{run, step};
use machine::{Header, Outcome};
use match_load::origin_of;
use metadata::Warrior;
use offset::{Absolute, Relative, add};
use warrior::{place, start};

#[derive(Clone, Copy)]
pub(crate) enum Call<'a> {
    Load(Warrior<'a>),
    Step,
    Run(Option<u64>),
}

// A load of the Rust's is a place, and then a start at the origin, modulo the core's size.
fn load(core: &mut [u64], queue: &mut [u64], h: Header, w: Warrior) -> Outcome {
    let placed = place(core, queue, h, w.name, w.body, w.place);
    if placed.answer.is_err() {
        return placed;
    }
    let origin = Relative(origin_of(w.origin));
    let at = add(Absolute(w.place), origin, h.rules.size);
    start(core, queue, placed.header, w.name, at.0)
}

impl<'a> Call<'a> {
    // Reads a call: its kind, then a load's name length, name, origin, instruction count and body, or a run's ceiling.
    pub(crate) fn read(input: &mut Input<'a>) -> Self
        ensures { length input.new.rest.now ≤ length input.old.rest.now }
    {
        match input.byte() {
            0 => {
                let length = input.byte() as usize;
                let name = input.part(length);
                let origin = input.two();
                let instructions = input.two() as usize;
                let body = input.part(12 * instructions);
                Call::Load(Warrior {
                    name,
                    body,
                    origin,
                    place: 0,
                })
            }
            1 => Call::Step,
            2 => Call::Run(Some(input.four() as u64)),
            _ => Call::Run(None),
        }
    }

    // Makes the call.
    pub(crate) fn make(self, core: &mut [u64], queue: &mut [u64], h: Header) -> Outcome {
        match self {
            Call::Load(warrior) => load(core, queue, h, warrior),
            Call::Step => step(core, queue, h),
            Call::Run(ceiling) => run(core, queue, h, ceiling),
        }
    }
}
