// The body of a warrior as it is handed in (01, 'Load'): match-file bytes, 12 to an instruction. The layout's numbers stand here as the promises write them.
#![tactic(auto)]

ghost use Rattle.std.specs.Prelude.{◌≡◌};
ghost use Rattle.std.proofs.lemmas.List.Edits.{sets};
ghost use Rattle.cell.specs.Cells.{packed};
ghost use Rattle.program.specs.Program.{instructions, modifier_of, lawful, fault_in, cell_of, cells};

use cell::{Cell, pack};
use encoding::{number32, signed};
use offset::reduce;
use types::modifier::{I, UNNAMED};
use types::{default_88_to_94, has_default, in_range};

// How many instructions a body has; a last one cut short counts.
pub fn len(body: &[u8]) -> usize
    ensures { result ≡ instructions body.now }
{
    body.len().div_ceil(12)
}

// The modifier of an instruction, 255 resolved; 255 where there is no default, as the definition says.
fn modifier_of(x: &[u8; 12]) -> u8
    ensures { result ≡ modifier_of x.now }
{
    if x[1] == UNNAMED {
        return default_88_to_94(x[0], x[2], x[3]).unwrap_or(UNNAMED);
    }
    x[1]
}

// Whether the codes of an instruction are legal.
fn is_lawful(x: &[u8; 12]) -> bool
    ensures { result ≡ lawful x.now }
{
    if !in_range(x[0], x[2], x[3]) {
        return false;
    }
    if x[1] == UNNAMED {
        return has_default(x[0], x[2], x[3]);
    }
    x[1] <= I
}

// The lowest index of a faulty instruction, where there is one: one cut short, which is the last, is faulty.
pub fn lowest_fault(body: &[u8]) -> Option<usize>
    ensures { result ≡ fault_in body.now }
{
    let (whole, cut) = body.as_chunks::<12>();
    let faulty = whole.iter().position(|x| !is_lawful(x));
    faulty.or((!cut.is_empty()).then_some(whole.len()))
}

// The word that an instruction becomes in a core of that size.
fn word_of(x: &[u8; 12], size: u32) -> u64
    ensures { result ≡ packed (cell_of size x.now) }
{
    let a = number32(x[4], x[5], x[6], x[7]);
    let b = number32(x[8], x[9], x[10], x[11]);
    pack(Cell {
        opcode: x[0],
        modifier: modifier_of(x),
        a_mode: x[2],
        b_mode: x[3],
        a: reduce(signed(a), size),
        b: reduce(signed(b), size),
    })
}

// Writes the words of a body's whole instructions, as many as there is room for.
pub fn write_cells(core: &mut [u64], body: &[u8], size: u32)
    ensures { core.new ≡ sets core.old 0 (cells size body.now) }
{
    let (whole, _) = body.as_chunks::<12>();
    let count = whole.len().min(core.len());
    // Of `core.iter_mut().zip(whole)`, as of any adapter of `iter_mut`, the check knows no values.
    for (i, x) in whole[..count].iter().enumerate() {
        core[i] = word_of(x, size);
    }
}
