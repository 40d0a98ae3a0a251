// A face of a corner, and whether an earlier vertex names it: the floors above take each face at the first vertex that does.
ghost use Rattle.std.specs.Prelude.{◌≡◌, true, ◌<◌};
ghost use Rattle.lattice.specs.Records.{valid_of};
ghost use Rattle.lattice.specs.RecordLaws.{Inner};
ghost use Rattle.table.specs.Slots.{Table, slots_of};
ghost use Rattle.table.specs.Order.{InOrder};
ghost use Rattle.firsts.specs.Faces.{next_place, turned};
ghost use Rattle.firsts.specs.Strides.{ToldOf};
ghost use Rattle.firsts.specs.Earlier.{spot_is, corner_is, names_face, slot_in, face_in, face_before};

use crate::earlier::{earlier, inners_before};
use crate::fits::{Fits, told_earlier};
use lattice::{Point, Record, adjacent_of, same_point};
use queries::chosen;

// A face: its four vertices in their order round, from one of them on. Round a vertex: itself, the adjacent point of a corner, the opposite, the next
// adjacent point.
#[derive(Clone, Copy)]
pub struct Face {
    pub at: Point,
    pub adjacent: Point,
    pub opposite: Point,
    pub next: Point,
}

// The place after j in a star of degree d, the last before the first. By no `%`: a division at each corner would be slower.
pub fn next_place(d: u8, j: u8) -> u8
    requires { j < d }
    ensures { (result ≡ next_place d j) × (result < d) }
{
    let i = j + 1;
    if i == d { 0 } else { i }
}

// The same face, read from its next vertex on.
fn turn(f: Face) -> Face
    ensures { result ≡ turned f }
{
    let at = f.adjacent;
    let adjacent = f.opposite;
    let opposite = f.next;
    let next = f.at;
    Face {
        at,
        adjacent,
        opposite,
        next,
    }
}

// Whether a corner's opposite is p.
pub fn spot_is(s: Option<Point>, p: Point) -> bool
    ensures { result ≡ spot_is s p }
{
    match s {
        Some(o) => same_point(o, p),
        None => false,
    }
}

// Whether corner i of u makes the face f, if that is read from u on.
fn corner_is(t: &[u8], u: Record, f: Face, i: u8, n: usize) -> bool
    requires table { Table t.now n }
    requires inner { Inner u × (i < u.d) }
    ensures { result ≡ corner_is t.now u f i }
{
    let adjacent = f.adjacent;
    let next = f.next;
    let opposite = f.opposite;
    if !same_point(adjacent_of(u, i), adjacent) {
        return false;
    }
    if !same_point(adjacent_of(u, next_place(u.d, i)), next) {
        return false;
    }
    spot_is(chosen(t, u, i, n), opposite)
}

// Whether some corner of u does. At most one has the adjacent point, so there is at most one choice of an opposite.
fn names_face(t: &[u8], u: Record, f: Face, n: usize) -> bool
    requires table { Table t.now n }
    requires u_value { valid_of u ≡ true }
    ensures { result ≡ names_face t.now f u }
{
    for i in 0..u.d {
        if corner_is(t, u, f, i, n) {
            return true;
        }
    }
    false
}

// Whether the vertex in slot s stands before slot k and names f.
fn face_in(t: &[u8], f: Face, s: usize, k: usize, n: usize) -> bool
    requires { InOrder t.now × ((n ≡ slots_of t.now) × (k < n)) }
    ensures { result ≡ face_in t.now k f s }
{
    match earlier(t, s, k, n) {
        None => false,
        Some(u) => names_face(t, u, f, n),
    }
}

// Whether one of the three other vertices of f, in these slots, does.
fn face_before(
    t: &[u8],
    f: Face,
    adjacent: usize,
    opposite: usize,
    next: usize,
    k: usize,
    n: usize,
) -> bool
    requires in_order { InOrder t.now × ((n ≡ slots_of t.now) × (k < n)) }
    requires adjacent_value { (adjacent ≡ slot_in t.now f.adjacent) × ((opposite ≡ slot_in t.now f.opposite) × (next ≡ slot_in t.now f.next)) }
    ensures { result ≡ face_before t.now k f }
{
    let second = turn(f);
    if face_in(t, second, adjacent, k, n) {
        return true;
    }
    let third = turn(second);
    if face_in(t, third, opposite, k, n) {
        return true;
    }
    face_in(t, turn(third), next, k, n)
}

// The same where some of them are known to name it by their strides. Only those that have a star can.
pub fn face_seen(
    t: &[u8],
    f: Face,
    adjacent: usize,
    opposite: usize,
    next: usize,
    fits: Fits,
    k: usize,
    n: usize,
) -> bool
    requires in_order { InOrder t.now × ((n ≡ slots_of t.now) × (k < n)) }
    requires adjacent_value { (adjacent ≡ slot_in t.now f.adjacent) × ((opposite ≡ slot_in t.now f.opposite) × (next ≡ slot_in t.now f.next)) }
    requires told_of { ToldOf t.now f adjacent opposite next fits }
    ensures { result ≡ face_before t.now k f }
{
    if told_earlier(fits, adjacent, opposite, next, k) {
        return true;
    }
    if !inners_before(t, adjacent, opposite, next, k, n) {
        return false;
    }
    face_before(t, f, adjacent, opposite, next, k, n)
}
