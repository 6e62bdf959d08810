// Bytes stored in memory.
ghost use Rattle.std.specs.Prelude.{◌≡◌};
ghost use Rattle.std.proofs.lemmas.List.Edits.{sets};

// Stores the bytes of a slice from a position on, as many as there is room for.
pub fn copy(out: &mut [u8], at: usize, bytes: &[u8])
    ensures { out.new ≡ sets out.old at bytes.now }
{
    let at = at.min(out.len());
    let count = bytes.len().min(out.len() - at);
    out[at..at + count].copy_from_slice(&bytes[..count]);
}
