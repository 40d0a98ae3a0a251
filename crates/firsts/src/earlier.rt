// Where points stand, and which records stand before a slot: what is counted at one of several vertices is counted at the one that stands first.
ghost use Rattle.std.specs.Prelude.{◌≡◌, ◌≤◌, ◌<◌};
ghost use Rattle.lattice.specs.AnswerRows.{answer_numbers};
ghost use Rattle.lattice.specs.RecordLaws.{Inner};
ghost use Rattle.lattice.specs.Stars.{adjacent_at, given};
ghost use Rattle.table.specs.Slots.{Table};
ghost use Rattle.firsts.specs.Faces.{next_place};
ghost use Rattle.firsts.specs.Earlier.{slot_in, placed_of, earlier_in, inner_in, inners_in};

use crate::faces::next_place;
use lattice::{ANSWER_NUMBERS, Point, Record, point_at};
use table::{Found, find, held_in};

// A point and the slot of its record, or the number of slots where it has none.
// No Option: `slot_in` and `placed_of`, which may not change, have that number, and one comparison tells whether a slot comes before another.
#[derive(Clone, Copy)]
pub struct Placed {
    pub at: Point,
    pub slot: usize,
}

// The slot of p, or n where it has none.
pub fn slot_of(t: &[u8], p: Point, n: usize) -> usize
    requires { Table t.now n }
    ensures { result ≡ slot_in t.now p }
{
    let f = find(t, p, n);
    match f {
        Found::At(i) => i,
        Found::Free(_) => n,
        Found::Full => n,
    }
}

// A point with its slot.
pub fn with_slot(t: &[u8], at: Point, n: usize) -> Placed
    requires { Table t.now n }
    ensures { result ≡ placed_of t.now at }
{
    let slot = slot_of(t, at, n);
    Placed { at, slot }
}

// The adjacent point after place j of v, with its slot, by the star's row; past the last comes the first, which is known.
pub fn next_placed(
    t: &[u8],
    row: &[i32; ANSWER_NUMBERS],
    v: Record,
    j: u8,
    first: Placed,
    n: usize,
) -> Placed
    requires table { Table t.now n }
    requires row_value { row.now ≡ answer_numbers (given v) }
    requires inner { Inner v × (j < v.d) }
    requires first_value { first ≡ placed_of t.now (adjacent_at v 0) }
    ensures { result ≡ placed_of t.now (adjacent_at v (next_place v.d j)) }
{
    let i = next_place(v.d, j);
    if i == 0 {
        return first;
    }
    with_slot(t, point_at(row, v, i), n)
}

// The record in slot s, if that stands before slot k.
pub fn earlier(t: &[u8], s: usize, k: usize, n: usize) -> Option<Record>
    requires { Table t.now n × (k ≤ n) }
    ensures { result ≡ earlier_in t.now k s }
{
    if s < k { held_in(t, s) } else { None }
}

// Whether the vertex in slot s stands before slot k and has a star.
pub fn inner_before(t: &[u8], s: usize, k: usize, n: usize) -> bool
    requires { Table t.now n × (k ≤ n) }
    ensures { result ≡ inner_in t.now k s }
{
    match earlier(t, s, k, n) {
        None => false,
        Some(u) => 0 < u.d,
    }
}

// Whether one of three does.
pub fn inners_before(t: &[u8], a: usize, o: usize, b: usize, k: usize, n: usize) -> bool
    requires { Table t.now n × (k ≤ n) }
    ensures { result ≡ inners_in t.now k a o b }
{
    let adjacent = inner_before(t, a, k, n);
    let opposite = inner_before(t, o, k, n);
    let next = inner_before(t, b, k, n);
    adjacent | (opposite | next)
}
