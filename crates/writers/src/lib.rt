// The files of a table: document 01, "Files", written into lent bytes.
//
// Two public calls answer every table and output: `write_full` and `write_reduced`. kept.rt goes through the slots, named.rt says which records
// are left out, keys.rt has what they are sorted by, lines.rt writes. The promises cite specs/Files.
#![tactic(auto)]

ghost use Rattle.std.specs.Prelude.{◌≡◌, ltb, length};
ghost use Rattle.lattice.specs.Refusals.{number_told};
ghost use Rattle.table.specs.Order.{InOrder};
ghost use Rattle.table.specs.Slots.{slots_of, free_slots};
ghost use Rattle.writers.specs.Files.{output_after, bytes_told, put_of, write_full_of, write_reduced_of};
ghost use Rattle.writers.specs.LeftLaws.{file_of};

mod kept;
mod keys;
mod lines;
mod named;

use crate::kept::file_length;
use crate::lines::write_lines;
use crate::named::mark_all;
pub use kept::{Amount, put_keys};
pub use keys::unpack;
use lattice::Refusal;
pub use named::MARK_BYTES;
use sorting::sort;
use table::{check_order, slots_of};

// The bytes of the longest line.
const LONGEST: usize = 26;

// The file of the records that are not marked has more bytes than there is room for. With room for the longest lines nothing is measured.
pub fn is_short(table: &[u8], marks: &[u8; MARK_BYTES], n: usize, free: usize, room: usize) -> bool
    requires in_order { InOrder table.now × (n ≡ slots_of table.now) }
    requires free_value { free ≡ free_slots table.now }
    ensures { result ≡ ltb room (length (file_of table.now marks.now)) }
{
    if LONGEST * (n - free) <= room {
        return false;
    }
    room < file_length(table, marks, n)
}

// Writes that file, in a table with so many free slots.
pub fn write_kept(
    table: &[u8],
    marks: &[u8; MARK_BYTES],
    n: usize,
    free: usize,
    out: &mut [u8],
) -> Result<u64, Refusal>
    requires in_order { InOrder table.now × (n ≡ slots_of table.now) }
    requires free_value { free ≡ free_slots table.now }
    ensures { output_after (number_told result) (bytes_told result) out.new ≡ put_of (file_of table.now marks.now) out.old }
{
    if is_short(table, marks, n, free, out.len()) {
        return Err(Refusal::Short);
    }
    let put = put_keys(table, marks, n, out);
    sort(out, put.keys);
    write_lines(out, put.keys, put.bytes);
    Ok(put.bytes as u64)
}

// Writes the full file of a table: every record, in the order of lines. Refused as not in order or short, no byte is changed; bytes past the file never are.
// In time n log n for n slots, as long as the searches are short, with no memory but the output and 8 KiB of stack.
pub fn write_full(table: &[u8], out: &mut [u8]) -> Result<u64, Refusal>
    ensures { output_after (number_told result) (bytes_told result) out.new ≡ write_full_of table.now out.old }
{
    let Some(free) = check_order(table) else {
        return Err(Refusal::NotInOrder);
    };
    let n = slots_of(table);
    write_kept(table, &[0; MARK_BYTES], n, free, out)
}

// Writes the reduced file of a table: every record but those of degree 3 that some vertex of degree 6 names. As `write_full` in all else; one function that
// takes the marking as a closure would be no plainer, since its promise would have to say what that marks.
pub fn write_reduced(table: &[u8], out: &mut [u8]) -> Result<u64, Refusal>
    ensures { output_after (number_told result) (bytes_told result) out.new ≡ write_reduced_of table.now out.old }
{
    let Some(free) = check_order(table) else {
        return Err(Refusal::NotInOrder);
    };
    let n = slots_of(table);
    let mut marks = [0; MARK_BYTES];
    mark_all(table, n, &mut marks);
    write_kept(table, &marks, n, free, out)
}
