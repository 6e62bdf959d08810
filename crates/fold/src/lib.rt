// Rules (02, A.2 and A.4): those with both limits M, which limits fresh takes, and pointers folded by the read and the write limit.
#![tactic(auto)]

ghost use Rattle.std.specs.Prelude.{◌≡◌, cond, ◌&&◌, ◌+◌, eqb};
ghost use Rattle.machine.specs.State.{of_size};
ghost use Rattle.machine.specs.Pointers as spec;
ghost use Rattle.machine.specs.Soundness as sound;

use machine::Rules;
use machine::limits::MOST_PROCESSES;
use offset::{Relative, remainder};

// The rules of a core of that size and a process limit, with both other limits the size.
pub fn of_size(size: u32, processes: u32) -> Rules
    ensures { result ≡ of_size size processes }
{
    Rules {
        size,
        read: size,
        write: size,
        processes,
    }
}

// Whether a limit divides the core's size; 0 divides none. `is_multiple_of` has 0 divide 0, and asks for a division where the limit is M, the usual one.
fn divides(limit: u32, size: u32) -> bool
    ensures { result ≡ sound.divides limit size }
{
    if limit == 0 {
        return false;
    }
    limit == size || size % limit == 0
}

// Whether both limits divide the core's size.
pub fn valid_limits(rules: Rules) -> bool
    ensures { result ≡ sound.valid_limits rules }
{
    divides(rules.read, rules.size) && divides(rules.write, rules.size)
}

// Whether a process limit is one that fresh takes beside a queue memory of so many entries.
pub fn valid_processes(processes: u32, slots: usize) -> bool
    ensures { result ≡ sound.valid_processes processes slots }
{
    (1 <= processes) & (processes <= MOST_PROCESSES) & (16 * processes as usize <= slots)
}

// Whether both limits are the core's size.
pub fn unlimited(rules: Rules) -> bool
    ensures { result ≡ (eqb rules.read rules.size && eqb rules.write rules.size) }
{
    (rules.read == rules.size) & (rules.write == rules.size)
}

// A pointer, taken from PC, folded by a limit; 0 for a limit of 0, which no sound header has, so an Option would be for nothing. The sum of two numbers can pass 32 bits.
fn folded(p: u64, limit: u32, size: u32) -> Relative
    ensures { result.0 ≡ cond (eqb limit 0) 0 (spec.fold limit size p) }
{
    if limit == 0 {
        return Relative(0);
    }
    let r = remainder(p, limit);
    if r <= limit / 2 {
        return Relative(r);
    }
    if size <= limit {
        return Relative(r);
    }
    let behind = r + (size - limit);
    Relative(behind)
}

// A number folded by a limit; 0 for a limit of 0.
pub fn fold(n: Relative, limit: u32, size: u32) -> Relative
    ensures { result.0 ≡ cond (eqb limit 0) 0 (spec.fold limit size n.0) }
{
    folded(n.0 as u64, limit, size)
}

// The folded sum of two numbers; 0 for a limit of 0.
pub fn fold_sum(n: Relative, found: Relative, limit: u32, size: u32) -> Relative
    ensures { result.0 ≡ cond (eqb limit 0) 0 (spec.fold limit size (n.0 + found.0)) }
{
    folded(n.0 as u64 + found.0 as u64, limit, size)
}
