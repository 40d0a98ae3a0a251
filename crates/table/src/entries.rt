// The table as a map from points to records: looked up, entered.
ghost use Rattle.std.specs.Prelude.{◌≡◌, ◌+◌, ◌*◌, ◌≤◌, length};
ghost use Rattle.lattice.specs.Points.{normal_of};
ghost use Rattle.table.specs.Slots.{slot_width, Table, slot_at};
ghost use Rattle.table.specs.Search.{find_of};
ghost use Rattle.table.specs.Told.{Reaches};
ghost use Rattle.table.specs.Entries.{held_in, look_up, holds, enter_of};

use crate::home::home;
use crate::probe::{Found, find, find_from};
use crate::slots::{read_slot, write_slot};
use lattice::{Point, Record, normalise};

// The record in slot i, if any.
pub fn held_in(t: &[u8], i: usize) -> Option<Record>
    requires { slot_width * i + slot_width ≤ length t.now }
    ensures { result ≡ held_in (slot_at t.now i) }
{
    match read_slot(t, i) {
        None => None,
        Some(r) => Some(r),
    }
}

// The record at a point.
pub fn look_up(t: &[u8], p: Point, n: usize) -> Option<Record>
    requires { Table t.now n }
    ensures { result ≡ look_up t.now p }
{
    match find(t, p, n) {
        Found::At(i) => held_in(t, i),
        Found::Free(_) | Found::Full => None,
    }
}

// Whether a record stands at a point.
pub fn is_there(t: &[u8], p: Point, n: usize) -> bool
    requires { Table t.now n }
    ensures { result ≡ holds t.now p }
{
    matches!(find(t, p, n), Found::At(_))
}

// The record at a point as a request gives it: any numbers, normalised before they are looked up. A point outside a record's ranges is not found.
pub fn look_up_request(t: &[u8], a: i32, b: i32, m: u8, n: usize) -> Option<Record>
    requires { Table t.now n }
    ensures { result ≡ look_up t.now (normal_of a b m) }
{
    look_up(t, normalise(a, b, m), n)
}

// Enters a record where the search for its point, which comes as far as slot i, ends. Where the point is there already, or no slot is free, nothing
// changes.
pub fn enter_from(t: &mut [u8], r: Record, i: usize, n: usize) -> Found
    requires { Table t.old n × Reaches t.old r.at i }
    ensures value { result ≡ find_of t.old r.at }
    ensures t_after { t.new ≡ enter_of t.old r }
{
    let f = find_from(t, r.at, i, n);
    if let Found::Free(j) = f {
        write_slot(t, j, r);
    }
    f
}

// Enters a record at the first free slot that the search for its point meets. Where the point is there already, or no slot is free, nothing changes.
pub fn enter(t: &mut [u8], r: Record, n: usize) -> Found
    requires { Table t.old n }
    ensures value { result ≡ find_of t.old r.at }
    ensures t_after { t.new ≡ enter_of t.old r }
{
    enter_from(t, r, home(r.at, n), n)
}
