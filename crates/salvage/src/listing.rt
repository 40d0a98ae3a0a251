// The list of changes: what is listed of each line, and then of each record restored. A mark a slot of the table says which records have had a line.
ghost use Rattle.std.specs.Prelude.{◌≡◌, ◌++◌, ◌+◌, ◌≤◌, ◌<◌, ◌^◌, replicate};
ghost use Rattle.marks.specs.Marks.{Marks};
ghost use Rattle.table.specs.Slots.{Table, slots_of};
ghost use Rattle.table.specs.Search.{find_of};
ghost use Rattle.table.specs.Order.{InOrder, is_at};
ghost use Rattle.writers.specs.Kept.{mark_bytes};
ghost use Rattle.salvage_lines.specs.OldLines.{salvaged};
ghost use Rattle.salvage.specs.Salvage.{dropped_word, normalised_word, repeat_word, change, change_if, changes};
ghost use Rattle.salvage.specs.NoteLaws.{Puts};
ghost use Rattle.salvage.specs.ListLaws.{marked_where, slot_note, notes_below, AllHeld, Listed};

use crate::notes::put_note;
use lattice::Point;
use marks::{mark, marked};
use salvage_lines::{Piece, piece_at};
use table::{Found, find, read_slot};
use writers::MARK_BYTES;

// Whether a record of this point had a line before; from now on it has.
fn had_line(table: &[u8], n: usize, marks: &mut [u8; MARK_BYTES], p: Point) -> bool
    requires { Table table.now n }
    ensures value { result ≡ marked_where (find_of table.now p) marks.old }
    ensures marks { Marks marks.old (is_at (find_of table.now p)) marks.new }
{
    match find(table, p, n) {
        Found::At(i) => {
            let had = marked(marks, i);
            mark(marks, i);
            had
        }
        Found::Free(_) => false,
        Found::Full => false,
    }
}

// Puts a change's line where a test passes.
fn put_if(out: &mut [u8], at: usize, room: usize, test: bool, line: u64, word: &[u8]) -> usize
    requires { (at ≤ room + 1) × (room + 1 < 2 ^ 64) }
    ensures { Puts out.old at room (change_if test line word.now) out.new result }
{
    if test {
        return put_note(out, at, room, line, word);
    }
    at
}

// Puts what is listed of a line that is dropped.
fn put_dropped(out: &mut [u8], at: usize, room: usize, line: u64) -> usize
    requires { (at ≤ room + 1) × (room + 1 < 2 ^ 64) }
    ensures { Puts out.old at room (change line dropped_word) out.new result }
{
    put_note(out, at, room, line, b"dropped")
}

// Puts what is listed of a line that is kept.
fn put_kept(out: &mut [u8], at: usize, room: usize, line: u64, changed: bool, again: bool) -> usize
    requires { (at ≤ room + 1) × (room + 1 < 2 ^ 64) }
    ensures { Puts out.old at room (change_if changed line normalised_word ++ change_if again line repeat_word) out.new result }
{
    let past = put_if(out, at, room, changed, line, b"normalised");
    put_if(out, past, room, again, line, b"repeat")
}

// Puts what is listed of a slot: a line where its record had none.
fn put_slot(
    table: &[u8],
    marks: &[u8; MARK_BYTES],
    i: usize,
    out: &mut [u8],
    at: usize,
    room: usize,
) -> usize
    requires in_order { InOrder table.now × (i < slots_of table.now) }
    requires at_bound { (at ≤ room + 1) × (room + 1 < 2 ^ 64) }
    ensures { Puts out.old at room (slot_note table.now marks.now i) out.new result }
{
    match read_slot(table, i) {
        None => at,
        Some(_) => put_if(out, at, room, !marked(marks, i), 0, b"restored"),
    }
}

// Puts what is listed of all lines, and marks their records.
fn put_lines(
    table: &[u8],
    n: usize,
    file: &[u8],
    marks: &mut [u8; MARK_BYTES],
    out: &mut [u8],
    room: usize,
) -> usize
    requires in_order { InOrder table.now × ((n ≡ slots_of table.now) × AllHeld table.now file.now) }
    requires marks_value { (marks.old ≡ replicate mark_bytes 0) × (room + 1 < 2 ^ 64) }
    ensures { Listed table.now file.now out.old room out.new marks.new result }
{
    let mut p = 0;
    let mut line: u64 = 1;
    let mut at = 0;
    // where the next line begins only reading this one tells
    loop {
        match piece_at(file, p) {
            Piece::Over => return at,
            Piece::Dropped(next) => {
                at = put_dropped(out, at, room, line);
                p = next;
                line += 1;
            }
            Piece::Kept(r, changed, next) => {
                let again = had_line(table, n, marks, r.at);
                at = put_kept(out, at, room, line, changed, again);
                p = next;
                line += 1;
            }
        }
    }
}

// Puts what is listed of all slots.
fn put_slots(
    table: &[u8],
    n: usize,
    marks: &[u8; MARK_BYTES],
    out: &mut [u8],
    start: usize,
    room: usize,
) -> usize
    requires in_order { InOrder table.now × (n ≡ slots_of table.now) }
    requires start_bound { (start ≤ room + 1) × (room + 1 < 2 ^ 64) }
    ensures { Puts out.old start room (notes_below table.now marks.now n) out.new result }
{
    let mut at = start;
    for i in 0..n {
        at = put_slot(table, marks, i, out, at, room);
    }
    at
}

// Puts the list of changes of a file whose mended table is lent.
pub fn put_changes(table: &[u8], n: usize, file: &[u8], out: &mut [u8], room: usize) -> usize
    requires in_order { InOrder table.now × ((n ≡ slots_of table.now) × AllHeld table.now file.now) }
    requires room_bound { room + 1 < 2 ^ 64 }
    ensures { Puts out.old 0 room (changes (salvaged file.now) table.now) out.new result }
{
    let mut marks = [0; MARK_BYTES];
    let at = put_lines(table, n, file, &mut marks, out, room);
    put_slots(table, n, &marks, out, at, room)
}
