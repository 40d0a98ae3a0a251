// What follows the lines of a reduced file: what it leaves out is restored, and the whole is judged.
ghost use Rattle.std.specs.Prelude.{◌≡◌, length};
ghost use Rattle.lattice.specs.Refusals.{number_told};
ghost use Rattle.table.specs.Slots.{cleared_of};
ghost use Rattle.readers.specs.ReadLaws.{Lined};
ghost use Rattle.readers.specs.RestoreSteps.{file_records};
ghost use Rattle.readers.specs.CallLaws.{Closes};

use crate::restore::restore_file;
use lattice::Refusal;
use local::all_pass;

// The table of a file's records, completed: 11 or 8 from restoring, 11 where it is no grown mesh, 12 where a redundant record was kept.
pub fn complete(table: &mut [u8], scratch: &mut [u8], n: usize, file: &[u8]) -> Result<(), Refusal>
    requires { (length scratch.old ≡ length table.old) × Lined file.now n (file_records file.now) table.old }
    ensures closes { Closes (file_records file.now) table.old (number_told result) table.new }
    ensures scratch_after { scratch.new ≡ cleared_of scratch.old }
{
    let kept = restore_file(table, scratch, n, file)?;
    if !all_pass(table, n) {
        return Err(Refusal::NotGrown);
    }
    if kept {
        return Err(Refusal::Redundant);
    }
    Ok(())
}
