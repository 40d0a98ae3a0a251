// The readers of files: document 01, "Files".
//
// Two public calls answer every input: `read_full` and `read_reduced`. Their promises cite `read_full_of` and `read_reduced_of` of specs/Readers; what follows
// from them, for whoever stands above, is in specs/ReadLaws, RestoreLaws and Outcomes. `prepare` is how both begin, for a call that refuses more than they do
// (the census): the length test, and both tables cleared.
#![tactic(auto)]

mod begin;
mod complete;
mod lines;
mod restore;

ghost use Rattle.std.specs.Prelude.{◌≡◌};
ghost use Rattle.lattice.specs.Refusals.{fault_number, fault_line};
ghost use Rattle.readers.specs.Readers.{tables_after, read_full_of, read_reduced_of};

use crate::begin::{begin, refuse};
use crate::complete::complete;
pub use begin::prepare;
use lattice::{Fault, Refusal};
use local::all_pass;
pub use restore::restore_star;

// Reads a full file into a table, with a scratch table of the same length. Refused with 1 both are untouched; else scratch ends all 255, and so does
// the table where it is refused.
// Linear in the table's slots and in the file, as long as the searches are short.
pub fn read_full(table: &mut [u8], scratch: &mut [u8], file: &[u8]) -> Result<(), Fault>
    ensures { tables_after (fault_number result) (fault_line result) table.new scratch.new
        ≡ read_full_of table.old scratch.old file.now }
{
    let n = begin(table, scratch, file)?;
    if all_pass(table, n) {
        return Ok(());
    }
    Err(refuse(table, Refusal::NotGrown, 0))
}

// Reads a reduced file in the same way: what it leaves out is restored, and a redundant record that it kept is refused with 12.
pub fn read_reduced(table: &mut [u8], scratch: &mut [u8], file: &[u8]) -> Result<(), Fault>
    ensures { tables_after (fault_number result) (fault_line result) table.new scratch.new
        ≡ read_reduced_of table.old scratch.old file.now }
{
    let n = begin(table, scratch, file)?;
    if let Err(why) = complete(table, scratch, n, file) {
        return Err(refuse(table, why, 0));
    }
    Ok(())
}
