// Document 01's census program as a call: the text for an input, over lent bytes.
//
// One public call answers every input: `census`. The input is read by `readers::read_full`, what that accepts is counted by `tally::tally`, and the text
// written by texts.rt.
// The promise cites specs/Census.
#![tactic(auto)]

ghost use Rattle.std.specs.Prelude.{◌≡◌, ◌≤◌, length};
ghost use Rattle.lattice.specs.Refusals.{number_of, number_told, fault_number, fault_line};
ghost use Rattle.readers.specs.Readers.{tables_after};
ghost use Rattle.census_text.specs.Census as spec;
ghost use Rattle.census_text.specs.Census.{text_of, read_input_of, put, census_of};
ghost use Rattle.census_text.specs.InputLaws.{long_of};

mod texts;

use crate::texts::{put_counts, put_refused};
use lattice::{Fault, Refusal};
use readers::{prepare, read_full};
use table::slots_of;
use tally::tally;
pub use texts::Census;

// The longest input that is read.
const MOST_INPUT: usize = 65536;

// Why an input that is too long is refused. The tables are cleared, where their lengths fit.
fn refuse_long(table: &mut [u8], scratch: &mut [u8]) -> Refusal
    ensures { tables_after (number_of result) 0 table.new scratch.new ≡ long_of table.old scratch.old }
{
    match prepare(table, scratch) {
        None => Refusal::NotInOrder,
        Some(_) => Refusal::NoRoom,
    }
}

// Reads the input into the table.
fn read_input(input: &[u8], table: &mut [u8], scratch: &mut [u8]) -> Result<(), Fault>
    ensures { tables_after (fault_number result) (fault_line result) table.new scratch.new
        ≡ read_input_of table.old scratch.old input.now }
{
    if MOST_INPUT < input.len() {
        let why = refuse_long(table, scratch);
        return Err(Fault { why, line: 0 });
    }
    read_full(table, scratch, input)
}

// The census of an input: what document 01's program writes for it goes to `out`, the table and the scratch table being lent as `read_full` wants them
// and left as it leaves them.
// Gives back whether it counts or why it is refused, as the text says, and the bytes written. 13 where `out` is shorter than the text, with nothing
// written; 128 bytes always suffice.
pub fn census(input: &[u8], table: &mut [u8], scratch: &mut [u8], out: &mut [u8]) -> Census
    ensures answer { spec.result (put (number_told result.outcome) result.written out.new) table.new scratch.new
        ≡ census_of input.now table.old scratch.old out.old }
    ensures text_bound { length (text_of (read_input_of table.old scratch.old input.now)) ≤ 128 }
{
    if let Err(fault) = read_input(input, table, scratch) {
        return put_refused(out, fault.why, fault.line);
    }
    let n = slots_of(table);
    let counted = tally(table, n);
    put_counts(out, counted)
}
