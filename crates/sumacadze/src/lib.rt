// The machine's calls for programs in C and Rust (include/sumacadze.h), whose symbols are in crate `sumacadze_c`: a fresh machine, cell reading, and place, start, step and run over a header that the caller lends and that is changed in place.
#![tactic(auto)]

ghost use Rattle.std.specs.Prelude.{◌≡◌};
ghost use Rattle.answer.specs.Numbers.{gives};
ghost use Rattle.cell.specs.Cells.{unpacked};
ghost use Rattle.machine.specs.Fresh as begins;
ghost use Rattle.machine.specs.Place as placing;
ghost use Rattle.machine.specs.Start as starting;
ghost use Rattle.machine.specs.Run as running;
ghost use Rattle.machine.specs.Step as one;
ghost use Rattle.lent.specs.Parts.{machine_of};
ghost use Rattle.lent.specs.Given.{given, given_by};
ghost use Rattle.sumacadze.specs.Report.{ceiling_if, cell_of};

use by_value::{ceiling_if, hand_back, in_numbers};
use machine::{Header, Rules};

mod by_value;
pub mod file;
pub mod load_match;

// 01's number, its value, and the writes and steps of a call. In this struct and the others a refusal is a number beside zeros, since C has no Result.
#[repr(C)]
#[derive(Clone, Copy)]
pub struct Report {
    pub number: u8,
    pub value: usize,
    pub writes: u64,
    pub steps: u64,
}

// 01's number, and the header of a fresh machine.
#[repr(C)]
#[derive(Clone, Copy)]
pub struct Fresh {
    pub number: u8,
    pub header: Header,
}

// 01's number, and the fields of a cell. As those of file.rt it is made of a Result at one place, where a `From` would have one caller.
#[repr(C)]
#[derive(Clone, Copy)]
pub struct Reading {
    pub number: u8,
    pub opcode: u8,
    pub modifier: u8,
    pub a_mode: u8,
    pub b_mode: u8,
    pub a: u32,
    pub b: u32,
}

// A fresh machine: fresh cells, zeros in the queue memory, and its header.
pub fn sumacadze_fresh(rules: Rules, core: &mut [u64], queue: &mut [u64]) -> Fresh
    ensures { (result.number ≡ (begins.fresh rules core.old queue.old).number)
        × (machine_of core.new queue.new result.header ≡ (begins.fresh rules core.old queue.old).machine) }
{
    let s = sim::fresh(rules, core, queue);
    let answer = s.answer;
    let header = s.header;
    Fresh {
        number: answer::number(answer),
        header,
    }
}

// The cell at any number, reduced; all zero where it is refused.
pub fn sumacadze_get(core: &[u64], queue: &[u64], header: Header, number: i32) -> Reading
    ensures { (result.number ≡ (running.read (machine_of core.now queue.now header) number).number)
        × (cell_of result.opcode result.modifier result.a_mode result.b_mode result.a result.b ≡ unpacked (running.read (machine_of core.now queue.now header) number).value) }
{
    match sim::get(core, queue, header, number) {
        Ok(cell) => Reading {
            number: 0,
            opcode: cell.opcode,
            modifier: cell.modifier,
            a_mode: cell.a_mode,
            b_mode: cell.b_mode,
            a: cell.a.0,
            b: cell.b.0,
        },
        Err(error) => Reading {
            number: error.number(),
            opcode: 0,
            modifier: 0,
            a_mode: 0,
            b_mode: 0,
            a: 0,
            b: 0,
        },
    }
}

// Places a body under a name and starts nothing; an empty name is Warrior0.
pub fn sumacadze_place(
    core: &mut [u64],
    queue: &[u64],
    header: &mut Header,
    name: &[u8],
    body: &[u8],
    place: u32,
) -> Report
    ensures { given (gives result.number result.value) result.writes result.steps (machine_of core.new queue.now header.new)
        ≡ given_by (placing.place (machine_of core.old queue.now header.old) name.now body.now place) }
{
    let s = warrior::place(core, queue, *header, name, body, place);
    *header = s.header;
    in_numbers(&s)
}

// Starts a process under a name at a place of the core; an empty name is Warrior0.
pub fn sumacadze_start(
    core: &[u64],
    queue: &mut [u64],
    header: &mut Header,
    name: &[u8],
    place: u32,
) -> Report
    ensures { given (gives result.number result.value) result.writes result.steps (machine_of core.now queue.new header.new)
        ≡ given_by (starting.start (machine_of core.now queue.old header.old) name.now place) }
{
    let s = warrior::start(core, queue, *header, name, place);
    *header = s.header;
    in_numbers(&s)
}

// Executes one instruction of the process at the front.
pub fn sumacadze_step(core: &mut [u64], queue: &mut [u64], header: &mut Header) -> Report
    ensures { given (gives result.number result.value) result.writes result.steps (machine_of core.new queue.new header.new)
        ≡ given_by (one.step (machine_of core.old queue.old header.old)) }
{
    let s = cycle::step(core, queue, *header);
    hand_back(header, &s)
}

// Steps while steps taken are below the ceiling, if one is said (else below 10,000), up to the first answer not 0. C has no Option, so `said` tells whether there is a ceiling.
pub fn sumacadze_run(
    core: &mut [u64],
    queue: &mut [u64],
    header: &mut Header,
    said: bool,
    ceiling: u64,
) -> Report
    ensures { given (gives result.number result.value) result.writes result.steps (machine_of core.new queue.new header.new)
        ≡ given_by (running.run (ceiling_if said ceiling) (machine_of core.old queue.old header.old)) }
{
    let s = cycle::run(core, queue, *header, ceiling_if(said, ceiling));
    hand_back(header, &s)
}
