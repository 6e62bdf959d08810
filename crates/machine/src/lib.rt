// The record that 01's machine keeps beside the core's and the queue's memory. Its definitions are in specs/; there are no functions here.

#![tactic(auto)]

use answer::Answer;
use offset::Absolute;

pub mod limits;

// What fresh fixes and no call changes: the core's size, the read limit and the write limit (02, A.2), and the process limit P of each name (02, A.4).
#[repr(C)]
#[derive(Clone, Copy)]
pub struct Rules {
    pub size: u32,
    pub read: u32,
    pub write: u32,
    pub processes: u32,
}

// Where the ring of queued processes begins, and how many entries it has.
#[repr(C)]
#[derive(Clone, Copy)]
pub struct Ring {
    pub head: u32,
    pub length: u32,
}

// The names: how many are held, and 16 slots of 32 bytes and a length each.
#[repr(C)]
#[derive(Clone, Copy)]
pub struct Roster {
    pub held: u32,
    pub bytes: [u8; 512],
    pub lengths: [u8; 16],
}

// By what changes together; each of the 16 name slots has a count and a next thread number too. Laid out as C lays it out, since programs in C and Rust hold one.
#[repr(C)]
#[derive(Clone, Copy)]
pub struct Header {
    pub rules: Rules,
    pub ring: Ring,
    pub steps: u32,
    pub names: Roster,
    pub counts: [u32; 16],
    pub threads: [u32; 16],
}

// What placing, starting and a step change of a header beside its names: the ring, the steps taken, and each name's count and next thread number, side by side as the header has them.
#[derive(Clone, Copy)]
pub struct Processes {
    pub ring: Ring,
    pub steps: u32,
    pub counts: [u32; 16],
    pub threads: [u32; 16],
}

// A process: its place, its thread number and the index of its name.
#[derive(Clone, Copy)]
pub struct Entry {
    pub place: Absolute,
    pub thread: u32,
    pub name: u8,
}

// What fresh, place, start, step and run give back: an answer, its writes and steps, and the header. No Result: beside a refusal stand writes, steps and a header too.
#[derive(Clone, Copy)]
pub struct Outcome {
    pub answer: Answer,
    pub writes: u64,
    pub steps: u64,
    pub header: Header,
}
