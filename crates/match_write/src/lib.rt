// Writes match files (01, 'Match file').
#![tactic(auto)]

ghost use Rattle.std.specs.Prelude.{◌≡◌};
ghost use Rattle.match_format.specs.Format.{handed};
ghost use Rattle.match_file.specs.Reading.{warriors_at};
ghost use Rattle.write_checks.specs.Refusal.{given};
ghost use Rattle.match_write.specs.Writing.{write, write_first, write_added, Earlier};

use answer::Error;
use match_file::read;
use metadata::Warrior;
use store::store_file;
use write_checks::refusal;

mod store;

// Writes n warriors of a file, whose bodies begin at `start`, and one more. What was read of the file goes beside it, here and to `store_file`: of a struct with a lent part a contract speaks as it was at entry, in longer clauses.
fn write(
    file: &[u8],
    n: usize,
    start: usize,
    size: u32,
    w: Warrior<'_>,
    out: &mut [u8],
) -> Result<usize, Error>
    requires { Earlier file.now n start }
    ensures { given result out.new ≡ write size (warriors_at file.now 4 n) (handed w.entry) out.old }
{
    refusal(n, file.len() - start, size, w, out.len())?;
    Ok(store_file(out, file, n, start, size, w))
}

// Writes a file from M and one warrior. Gives its length.
pub fn write_first(size: u32, w: Warrior<'_>, out: &mut [u8]) -> Result<usize, Error>
    ensures { given result out.new ≡ write_first size (handed w.entry) out.old }
{
    write(&[], 0, 0, size, w, out)
}

// Copies a file that reads, with one warrior added. Gives its length.
pub fn write_added(file: &[u8], w: Warrior<'_>, out: &mut [u8]) -> Result<usize, Error>
    ensures { given result out.new ≡ write_added file.now (handed w.entry) out.old }
{
    let contents = read(file)?;
    let n = contents.warriors;
    write(file, n, 4 + 43 * n, contents.size, w, out)
}
