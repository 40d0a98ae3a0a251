// How both readers begin: the length test, both tables cleared, and the lines entered.
ghost use Rattle.std.specs.Prelude.{◌≡◌, IfOk, IfSome, ◌≢◌};
ghost use Rattle.lattice.specs.Refusals.{fault_number, fault_line};
ghost use Rattle.table.specs.Slots.{slots_of, cleared_of};
ghost use Rattle.readers.specs.LineSteps.{fault_at};
ghost use Rattle.readers.specs.BeginLaws.{Prepared, Begun, slots_told};

use crate::lines::read_lines;
use lattice::{Fault, Refusal};
use table::{clear, slots_of};

// Clears both tables, and gives the number of slots; where the lengths don't fit both stay untouched, and there is none.
pub fn prepare(table: &mut [u8], scratch: &mut [u8]) -> Option<usize>
    ensures prepared { Prepared table.old scratch.old table.new scratch.new (slots_told result) }
    ensures some { IfSome result (λ n. n ≢ 0) }
{
    let n = slots_of(table);
    if n == 0 {
        return None;
    }
    if scratch.len() != table.len() {
        return None;
    }
    clear(table);
    clear(scratch);
    Some(n)
}

// Refuses, past the length test: the table is cleared again.
pub fn refuse(table: &mut [u8], why: Refusal, line: u64) -> Fault
    ensures { (result ≡ fault_at why line) × (table.new ≡ cleared_of table.old) }
{
    clear(table);
    Fault { why, line }
}

// 1; then per line 9, 10, 8; else the number of slots, and the table holds the records of the file.
pub fn begin(table: &mut [u8], scratch: &mut [u8], file: &[u8]) -> Result<usize, Fault>
    ensures begun { Begun table.old scratch.old file.now (fault_number result) (fault_line result) table.new scratch.new }
    ensures slots { IfOk result (λ n. n ≡ slots_of table.new) }
{
    let Some(n) = prepare(table, scratch) else {
        return Err(Fault {
            why: Refusal::NotInOrder,
            line: 0,
        });
    };
    if let Err(fault) = read_lines(table, n, file) {
        return Err(refuse(table, fault.why, fault.line));
    }
    Ok(n)
}
