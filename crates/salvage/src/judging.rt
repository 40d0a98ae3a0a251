// A file judged, and the table filled: everything but the outputs.
ghost use Rattle.std.specs.Prelude.{◌≡◌, length};
ghost use Rattle.lattice.specs.Refusals.{number_told};
ghost use Rattle.table.specs.Slots.{Table};
ghost use Rattle.readers.specs.RestoreSteps.{restored_by};
ghost use Rattle.salvage.specs.JudgeLaws.{judged_file};

use crate::mending::mend;
use lattice::Refusal;
use salvage_lines::{Gathered, gather, has_clash};
use table::clear;

// Judges a file: 20, 8, 11; else the table is that of its sorted lines and of what they leave out. Only where the file has more different points than the
// table has slots is 20 judged in rounds.
pub fn judge(table: &mut [u8], scratch: &mut [u8], n: usize, file: &[u8]) -> Result<(), Refusal>
    requires { Table table.old n × (length scratch.old ≡ length table.old) }
    ensures { restored_by (number_told result) table.new ≡ judged_file table.old file.now }
{
    clear(table);
    match gather(table, n, file, 0, n + 1) {
        Gathered::All => mend(table, scratch, n),
        Gathered::Clashing => Err(Refusal::TwoRecords),
        Gathered::Upto(_) => {
            if has_clash(table, n, file) {
                return Err(Refusal::TwoRecords);
            }
            Err(Refusal::NoRoom)
        }
    }
}
