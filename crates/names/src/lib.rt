// The names that a header holds: finding one, and registering one.
#![tactic(auto)]

ghost use Rattle.std.specs.Prelude.{◌≡◌, ◌++◌, ◌-◌, ◌*◌, ◌≤◌, ◌<◌, length, replicate};
ghost use Rattle.std.proofs.lemmas.List.Edits.{sets};
ghost use Rattle.laws.specs.Lists.{same};
ghost use Rattle.machine.specs.Names.{name_at};
ghost use Rattle.lent.specs.Parts.{named_of, register_if};
ghost use Rattle.names.specs.Finding.{found};

use encoding::part;
use encoding::store::copy;
use machine::limits::MOST_NAMES;
use machine::{Processes, Roster};
use metadata::LONGEST;

// Whether two names are the same bytes: `==` under a promise of its own.
pub fn equal(a: &[u8], b: &[u8]) -> bool
    ensures { result ≡ same a.now b.now }
{
    a == b
}

// The name in a slot, as a part of the names' bytes. Names are looked through by their index, since a name is a part of two arrays.
pub fn name_at(names: &Roster, i: usize) -> &[u8]
    ensures { result.now ≡ name_at names.now i }
{
    if MOST_NAMES as usize <= i {
        return &names.bytes[..0];
    }
    part(&names.bytes, 32 * i, names.lengths[i] as usize)
}

// The index of a name, where it is held.
pub fn find(names: &Roster, name: &[u8]) -> Option<u32>
    ensures { result ≡ found names.now name.now }
{
    if names.held > MOST_NAMES {
        return None;
    }
    (0..names.held).find(|i| equal(name, name_at(names, *i as usize)))
}

// Writes a name to a slot of 32 bytes, padded with zeros. That it is no longer is asked, as in `match_write`: a name is bytes that C lends.
fn write_name(bytes: &mut [u8; 512], slot: usize, name: &[u8])
    requires { (slot < 16) × (length name.now ≤ 32) }
    ensures { bytes.new ≡ sets bytes.old (32 * slot) (name.now ++ replicate (32 - length name.now) 0) }
{
    let mut padded = [0; 32];
    padded[..name.len()].copy_from_slice(name);
    copy(bytes, 32 * slot, &padded);
}

// Registers a name in the next slot, with count and next thread number 0; where there is no slot it changes nothing.
pub fn register(names: &mut Roster, processes: &mut Processes, name: &[u8])
    ensures { named_of names.new processes.new ≡ register_if (named_of names.old processes.old) name.now }
{
    if MOST_NAMES <= names.held || name.len() > LONGEST {
        return;
    }
    let slot = names.held as usize;
    write_name(&mut names.bytes, slot, name);
    names.lengths[slot] = name.len() as u8;
    processes.counts[slot] = 0;
    processes.threads[slot] = 0;
    names.held += 1;
}
