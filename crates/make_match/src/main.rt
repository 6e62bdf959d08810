// Makes a match file from a text on standard input, and writes it to standard output; or says on standard error why there is none. examples/README.md has the form of the text.
#![tactic(auto)]

use crate::fault::Fault;
use crate::reading::{LONGEST_TEXT, Reading};
use memory::read_into;
use std::io::{Read, Write};

mod fault;
mod kind;
mod reading;

// Reads a text, one byte more than the longest at most, and writes its file.
fn run(input: &mut impl Read, output: &mut impl Write) -> Result<(), Fault> {
    let mut text = [0; LONGEST_TEXT + 1];
    let length = read_into(input, &mut text).map_err(|_| Fault::Unreadable)?;
    if length > LONGEST_TEXT {
        return Err(Fault::TooLong);
    }
    let mut reading = Reading::new();
    let file = reading.make(&text[..length])?;
    output.write_all(file).map_err(|_| Fault::NotTaken)
}

fn main(rt: HostRuntime) {
    if let Err(fault) = run(&mut rt.stdin(), &mut rt.stdout()) {
        let _ = eprintln!(rt; "make_match: {fault}");
    }
}
