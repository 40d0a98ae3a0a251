// The records that are written, slot by slot: how long their lines are, and their keys into the output.
ghost use Rattle.std.specs.Prelude.{◌≡◌, map, ◌+◌, ◌*◌, ◌≤◌, ◌<◌, length};
ghost use Rattle.table.specs.Slots.{slot_width, slots_of};
ghost use Rattle.table.specs.Order.{InOrder};
ghost use Rattle.table.specs.Entries.{listed};
ghost use Rattle.text.specs.Line.{lines};
ghost use Rattle.text.specs.LineLengths.{longest};
ghost use Rattle.sorting.specs.Sorting.{key_width};
ghost use Rattle.writers.specs.Kept.{places, kept_at, standing, key_for, Added};
ghost use Rattle.writers.specs.KeptLaws.{Filled};

use crate::keys::pack;
use crate::named::MARK_BYTES;
use lattice::Record;
use marks::marked;
use sorting::put_key;
use table::read_slot;
use text::line_length;

// What is written of slot i.
fn kept(table: &[u8], marks: &[u8; MARK_BYTES], i: usize) -> Option<Record>
    requires { (slot_width * i + slot_width ≤ length table.now) × (i < places) }
    ensures { result ≡ kept_at table.now marks.now i }
{
    match read_slot(table, i) {
        Some(r) if marked(marks, i) && r.d == 3 => None,
        slot => slot,
    }
}

// The bytes that are written of slot i.
fn length_at(table: &[u8], marks: &[u8; MARK_BYTES], i: usize) -> usize
    requires { InOrder table.now × (i < slots_of table.now) }
    ensures { (result ≡ length (lines (listed (kept_at table.now marks.now i)))) × (result ≤ longest) }
{
    match kept(table, marks, i) {
        None => 0,
        Some(r) => line_length(r),
    }
}

// The length of the file.
pub fn file_length(table: &[u8], marks: &[u8; MARK_BYTES], n: usize) -> usize
    requires { InOrder table.now × (n ≡ slots_of table.now) }
    ensures { result ≡ length (lines (standing (kept_at table.now marks.now) n)) }
{
    let mut total = 0;
    for i in 0..n {
        total += length_at(table, marks, i);
    }
    total
}

// How many keys were stored, and the bytes of their lines.
#[derive(Clone, Copy)]
pub struct Amount {
    pub keys: usize,
    pub bytes: usize,
}

// Stores the keys of all that is written, and counts them and their lines.
pub fn put_keys(table: &[u8], marks: &[u8; MARK_BYTES], n: usize, out: &mut [u8]) -> Amount
    requires in_order { InOrder table.now × (n ≡ slots_of table.now) }
    requires n_in_bounds { key_width * length (standing (kept_at table.now marks.now) n) ≤ length out.old }
    ensures filled { Filled out.old (map key_for (standing (kept_at table.now marks.now) n)) out.new result.keys }
    ensures bytes_value { result.bytes ≡ length (lines (standing (kept_at table.now marks.now) n)) }
{
    let mut put = Amount { keys: 0, bytes: 0 };
    for i in 0..n {
        if let Some(r) = kept(table, marks, i) {
            put_key(out, put.keys, pack(r));
            put.keys += 1;
            put.bytes += line_length(r);
        }
    }
    put
}
