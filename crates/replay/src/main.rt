// Plays battles that were recorded from the Rust, and writes what each call left. tools/oracle/README.md has both forms.
#![tactic(auto)]

ghost use Rattle.std.specs.Prelude.{◌<◌, length};

use crate::call::Call;
use crate::input::Input;
use crate::line::tell;
use fold::of_size;
use machine::limits::LARGEST_CORE;
use memory::zeros;
use sim::fresh;
use std::io::Result;

mod call;
mod input;
mod line;

// A process limit that no recorded battle meets.
const PROCESSES: u32 = 1024;

// A battle: core size, number of calls, the calls.
fn battle(input: &mut Input<'_>, core: &mut [u64], queue: &mut [u64]) -> Result<()>
    requires { 0 < length input.old.rest.now }
    ensures { length input.new.rest.now < length input.old.rest.now }
{
    let size = input.two();
    let calls = input.two();
    let Some(core) = core.get_mut(..size as usize) else {
        input.rest = &[];
        return Ok(());
    };
    let mut header = fresh(of_size(size as u32, PROCESSES), core, queue).header;
    // How often is all that counts.
    for _ in 0..calls {
        let outcome = Call::read(input).make(core, queue, header);
        header = outcome.header;
        tell(core, queue, outcome)?;
    }
    Ok(())
}

// All battles; how many there are is not said.
fn battles(input: &[u8], core: &mut [u64], queue: &mut [u64]) -> Result<()> {
    let mut input = Input { rest: input };
    while !input.rest.is_empty() {
        battle(&mut input, core, queue)?;
    }
    Ok(())
}

// Memory for the input, the largest core, and the queue of a process limit that no recorded battle meets. By `io`: std's standard input and output would add an assumed contract, of the call for the error's number.
fn main() {
    let mut input = zeros::<1200000>();
    let mut core = [0; LARGEST_CORE as usize];
    let mut queue = [0; 16 * PROCESSES as usize];
    let length = io::read_full(0, &mut input);
    let _ = battles(&input[..length], &mut core, &mut queue);
}
