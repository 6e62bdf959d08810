// Stores the bytes of a match file in the output, part by part.
ghost use Rattle.std.specs.Prelude.{◌≡◌, ◌++◌, ◌∷◌, [], ◌+◌, ◌-◌, ◌*◌, ◌^◌, ◌≤◌, ◌<◌, length};
ghost use Rattle.std.proofs.lemmas.List.Edits.{sets};
ghost use Rattle.program.specs.Program.{instructions};
ghost use Rattle.match_format.specs.Format.{handed, line, lines, bodies};
ghost use Rattle.match_format.specs.Format as format;
ghost use Rattle.match_format.proofs.Format.{Short};
ghost use Rattle.match_file.specs.Reading.{warriors_at};
ghost use Rattle.match_write.specs.Writing.{Earlier};

use encoding::store::copy;
use match_file::warrior_in;
use metadata::Warrior;
use program::len;

// Stores the line of a warrior whose body is to start there.
fn put_line(out: &mut [u8], at: usize, w: Warrior<'_>, start: usize)
    requires { (length w.name.now ≤ 32) × (at < 2 ^ 32) }
    ensures { out.new ≡ sets out.old at (line w.entry.name.now start (instructions w.entry.body.now) w.entry.origin w.entry.place) }
{
    let size = w.name.len();
    copy(out, at, &[size as u8]);
    copy(out, at + 1, w.name);
    copy(out, at + 1 + size, &[0; 32][size..]);
    copy(out, at + 33, &start.to_le_bytes()[..4]);
    copy(out, at + 37, &len(w.body).to_le_bytes()[..2]);
    copy(out, at + 39, &w.origin.to_le_bytes());
    copy(out, at + 41, &w.place.to_le_bytes()[..2]);
}

// Stores the lines of n warriors of a file, the first body at `first`. Gives the start of the body after theirs.
fn put_lines(out: &mut [u8], file: &[u8], n: usize, first: usize) -> usize
    requires { (n ≤ 15) × Short (warriors_at file.now 4 n) × (first + length (bodies (warriors_at file.now 4 n)) ≤ length out.old) }
    ensures { (result ≡ first + length (bodies (warriors_at file.now 4 n)))
        × (out.new ≡ sets out.old 4 (lines first (warriors_at file.now 4 n))) }
{
    let mut next = first;
    // The number is a line's, from which its place in both files follows.
    for number in 0..n {
        let w = warrior_in(file, number as u8);
        put_line(out, 4 + 43 * number, w, next);
        next += w.body.len();
    }
    next
}

// Stores the file of a size, of n warriors of a file whose bodies begin at `start`, and of one more. Gives its length. What was read of the file goes beside it, as to `write`.
pub(crate) fn store_file(
    out: &mut [u8],
    file: &[u8],
    n: usize,
    start: usize,
    size: u32,
    w: Warrior<'_>,
) -> usize
    requires { (n ≤ 15) × Earlier file.now n start × (length w.name.now ≤ 32)
        × (4 + 43 * (n + 1) + (length file.now - start) + length w.body.now ≤ length out.old) }
    ensures { (result ≡ 4 + 43 * (n + 1) + (length file.now - start) + length w.entry.body.now)
        × (out.new ≡ sets out.old 0 (format.file size (warriors_at file.now 4 n ++ (handed w.entry ∷ [])))) }
{
    let count = n + 1;
    let [low, high, _, _] = size.to_le_bytes();
    copy(out, 0, &[count as u8, low, high, 0]);
    let first = 4 + 43 * count;
    let next = put_lines(out, file, n, first);
    put_line(out, 4 + 43 * n, w, next);
    let bodies = &file[start..];
    copy(out, first, bodies);
    copy(out, first + bodies.len(), w.body);
    first + bodies.len() + w.body.len()
}
