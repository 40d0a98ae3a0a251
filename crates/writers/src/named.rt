// Which slots hold records that are left out: a mark a slot, in bytes on the stack.
ghost use Rattle.std.specs.Prelude.{◌≡◌, ◌<◌};
ghost use Rattle.marks.specs.Marks.{Marks};
ghost use Rattle.lattice.specs.RecordLaws.{Inner};
ghost use Rattle.table.specs.Slots.{Table, slots_of, slot_at};
ghost use Rattle.table.specs.Search.{find_of};
ghost use Rattle.table.specs.Order.{InOrder, is_at};
ghost use Rattle.writers.specs.Named.{star_finds, slot_finds, table_finds};

use lattice::{ANSWER_NUMBERS, Point, Record, point_at, ring};
use marks::mark;
use table::{Found, find, read_slot};

// The bytes that hold a mark for each slot of the greatest table.
pub const MARK_BYTES: usize = 8192;

// Marks the slot of a point, if it is in the table.
fn mark_point(table: &[u8], p: Point, n: usize, marks: &mut [u8; MARK_BYTES])
    requires { Table table.now n }
    ensures { Marks marks.old (is_at (find_of table.now p)) marks.new }
{
    if let Found::At(i) = find(table, p, n) {
        mark(marks, i);
    }
}

// Marks the slots of the six adjacent points of a vertex of degree 6.
fn mark_star(table: &[u8], v: Record, n: usize, marks: &mut [u8; MARK_BYTES])
    requires table { Table table.now n }
    requires inner { Inner v × (v.d ≡ 6) }
    ensures { Marks marks.old (star_finds table.now v 6) marks.new }
{
    let mut row = [0; ANSWER_NUMBERS];
    ring(&mut row, v);
    for j in 0..6 {
        mark_point(table, point_at(&row, v, j), n, marks);
    }
}

// Marks what the vertex in slot i names, if one of degree 6 is there.
fn mark_slot(table: &[u8], i: usize, n: usize, marks: &mut [u8; MARK_BYTES])
    requires { InOrder table.now × ((n ≡ slots_of table.now) × (i < n)) }
    ensures { Marks marks.old (slot_finds table.now (slot_at table.now i)) marks.new }
{
    match read_slot(table, i) {
        Some(v) if v.d == 6 => mark_star(table, v, n, marks),
        _ => {}
    }
}

// Marks every slot that some vertex of degree 6 names.
pub fn mark_all(table: &[u8], n: usize, marks: &mut [u8; MARK_BYTES])
    requires { InOrder table.now × (n ≡ slots_of table.now) }
    ensures { Marks marks.old (table_finds table.now n) marks.new }
{
    for i in 0..n {
        mark_slot(table, i, n, marks);
    }
}
