// The sides of the faces, each counted once by E (corners.rt). A side at a vertex, to an adjacent point, is counted at the first of its two ends that
// has it in a face. A side across a corner, from an adjacent point to the opposite, is left to its ends if one of them has it so; else, as between
// two vertices of the rim, it is counted at the first vertex across from it that has it, those that make a triangle with equal sides with it, one on
// either hand, before all others: nearly always there is no other, and one place to ask.
ghost use Rattle.std.specs.Prelude.{◌≡◌, true, ◌≤◌, ◌<◌};
ghost use Rattle.lattice.specs.Records.{valid_of};
ghost use Rattle.lattice.specs.RecordLaws.{Inner};
ghost use Rattle.lattice.specs.Stars.{adjacent_at};
ghost use Rattle.table.specs.Slots.{Table, slots_of};
ghost use Rattle.table.specs.Order.{InOrder};
ghost use Rattle.queries.specs.Queries.{is_point, chosen_at};
ghost use Rattle.across.specs.Across.{StarPoint, apex_of};
ghost use Rattle.firsts.specs.Earlier.{slot_in, placed_of, prev_place, faced, near_is, has_near, near_in, far_is, has_far, end_has, Round};
ghost use Rattle.firsts.specs.Strides.{ToldRound};
ghost use Rattle.counts.specs.Counted.{near_count, far_seen, far_before, has_either, apex_seen};
ghost use Rattle.counts.specs.Counted.{narrow_else, across_else, SparedAcross, Spared, far_one, far_count};

use across::{across, apex};
use firsts::earlier::earlier;
use firsts::{Fits, Placed, next_place, slot_of, spot_is};
use lattice::{Point, Record, adjacent_of, same_point};
use queries::chosen;

// ---- sides at a vertex

// The place before j in a star of degree d, the first after the last. `checked_sub` with a default is no plainer.
pub fn prev_place(d: u8, j: u8) -> u8
    requires { j < d }
    ensures { (result ≡ prev_place d j) × (result < d) }
{
    if j == 0 { d - 1 } else { j - 1 }
}

// Whether corner j of u has a face.
pub fn has_face(t: &[u8], u: Record, j: u8, n: usize) -> bool
    requires table { Table t.now n }
    requires inner { Inner u × (j < u.d) }
    ensures { result ≡ is_point (chosen_at t.now u j) }
{
    match chosen(t, u, j, n) {
        Some(_) => true,
        None => false,
    }
}

// Whether one of the two corners at place i of u has a face.
fn is_faced(t: &[u8], u: Record, i: u8, n: usize) -> bool
    requires table { Table t.now n }
    requires inner { Inner u × (i < u.d) }
    ensures { result ≡ faced t.now u i }
{
    if has_face(t, u, i, n) {
        return true;
    }
    has_face(t, u, prev_place(u.d, i), n)
}

// Whether place i of u has the side to p in a face.
fn near_is(t: &[u8], u: Record, p: Point, i: u8, n: usize) -> bool
    requires table { Table t.now n }
    requires inner { Inner u × (i < u.d) }
    ensures { result ≡ near_is t.now p u i }
{
    if !same_point(adjacent_of(u, i), p) {
        return false;
    }
    is_faced(t, u, i, n)
}

// Whether some place does. At most one has the point.
fn has_near(t: &[u8], u: Record, p: Point, n: usize) -> bool
    requires table { Table t.now n }
    requires u_value { valid_of u ≡ true }
    ensures { result ≡ has_near t.now p u }
{
    for i in 0..u.d {
        if near_is(t, u, p, i, n) {
            return true;
        }
    }
    false
}

// Whether the vertex in slot s stands before slot k and has the side to p.
fn near_in(t: &[u8], p: Point, s: usize, k: usize, n: usize) -> bool
    requires { InOrder t.now × ((n ≡ slots_of t.now) × (k ≤ n)) }
    ensures { result ≡ near_in t.now k p s }
{
    match earlier(t, s, k, n) {
        None => false,
        Some(u) => has_near(t, u, p, n),
    }
}

// The same where known tells that the vertex in slot s has the side, wherever that stands.
fn near_known(t: &[u8], p: Point, s: usize, known: bool, k: usize, n: usize) -> bool
    requires in_order { InOrder t.now × ((n ≡ slots_of t.now) × (k ≤ n)) }
    requires s_value { known ≡ true → near_in t.now (slots_of t.now) p s ≡ true }
    ensures { result ≡ near_in t.now k p s }
{
    if k <= s {
        return false;
    }
    if known {
        return true;
    }
    near_in(t, p, s, k, n)
}

// 1 where the side of v, in slot k, to its adjacent point a at place j is counted there, else 0; has tells whether one of the two corners there has a
// face, known that the vertex at a has the side.
pub fn near_count(
    t: &[u8],
    v: Record,
    j: u8,
    a: Placed,
    has: bool,
    known: bool,
    k: usize,
    n: usize,
) -> u32
    requires in_order { InOrder t.now × ((n ≡ slots_of t.now) × (k < n)) }
    requires a_value { a ≡ placed_of t.now (adjacent_at v j) }
    requires has_value { has ≡ faced t.now v j }
    requires slot_value { known ≡ true → near_in t.now (slots_of t.now) v.at a.slot ≡ true }
    ensures { (result ≡ near_count t.now k v j) × (result ≤ 1) }
{
    let p = v.at;
    if !has {
        return 0;
    }
    let before = near_known(t, p, a.slot, known, k, n);
    u32::from(!before)
}

// ---- sides across from a vertex

// How many places a vertex across from a side can have, seen from one end.
const PLACES: u8 = 8;

// Whether corner i of u has the side from its adjacent point p to the opposite q.
fn far_is(t: &[u8], u: Record, p: Point, q: Point, i: u8, n: usize) -> bool
    requires table { Table t.now n }
    requires inner { Inner u × (i < u.d) }
    ensures { result ≡ far_is t.now p q u i }
{
    if same_point(adjacent_of(u, i), p) {
        return spot_is(chosen(t, u, i, n), q);
    }
    if same_point(adjacent_of(u, next_place(u.d, i)), p) {
        return spot_is(chosen(t, u, i, n), q);
    }
    false
}

// Whether some corner does.
fn has_far(t: &[u8], u: Record, p: Point, q: Point, n: usize) -> bool
    requires table { Table t.now n }
    requires u_value { valid_of u ≡ true }
    ensures { result ≡ has_far t.now p q u }
{
    for i in 0..u.d {
        if far_is(t, u, p, q, i, n) {
            return true;
        }
    }
    false
}

// Whether the vertex across from p and q at place c of the eight stands before slot k and has that side.
fn far_seen(t: &[u8], p: Point, q: Point, c: u8, k: usize, n: usize) -> bool
    requires in_order { InOrder t.now × ((n ≡ slots_of t.now) × (k < n)) }
    requires star_point { StarPoint p × (StarPoint q × (c < 8)) }
    ensures { result ≡ far_seen t.now k p q c }
{
    let s = slot_of(t, across(p, q, c), n);
    match earlier(t, s, k, n) {
        None => false,
        Some(u) => has_far(t, u, p, q, n),
    }
}

// Whether some vertex before slot k has the side from its adjacent point p to the opposite q.
fn far_before(t: &[u8], p: Point, q: Point, k: usize, n: usize) -> bool
    requires in_order { InOrder t.now × ((n ≡ slots_of t.now) × (k < n)) }
    requires star_point { StarPoint p × StarPoint q }
    ensures { result ≡ far_before t.now k p q }
{
    for c in 0..PLACES {
        if far_seen(t, p, q, c, k, n) {
            return true;
        }
    }
    false
}

// Whether u has the side of p and q across from it, whichever of them is the opposite.
fn has_either(t: &[u8], u: Record, p: Point, q: Point, n: usize) -> bool
    requires table { Table t.now n }
    requires u_value { valid_of u ≡ true }
    ensures { result ≡ has_either t.now p q u }
{
    if has_far(t, u, p, q, n) {
        return true;
    }
    has_far(t, u, q, p, n)
}

// Whether a vertex at a stands before slot k and does.
fn apex_seen(t: &[u8], p: Point, q: Point, a: Point, k: usize, n: usize) -> bool
    requires { InOrder t.now × ((n ≡ slots_of t.now) × (k ≤ n)) }
    ensures { result ≡ apex_seen t.now k p q a }
{
    let s = slot_of(t, a, n);
    match earlier(t, s, k, n) {
        None => false,
        Some(u) => has_either(t, u, p, q, n),
    }
}

// Whether the side of p and q is counted elsewhere than at a vertex in slot k that stands at none of its apexes, left and right.
fn narrow_else(t: &[u8], p: Point, q: Point, left: Point, right: Point, k: usize, n: usize) -> bool
    requires in_order { InOrder t.now × ((n ≡ slots_of t.now) × (k < n)) }
    requires star_point { StarPoint p × StarPoint q }
    requires left_value { (left ≡ apex_of p q) × (right ≡ apex_of q p) }
    ensures { result ≡ narrow_else t.now k p q }
{
    if apex_seen(t, p, q, left, n, n) {
        return true;
    }
    if apex_seen(t, p, q, right, n, n) {
        return true;
    }
    if far_before(t, p, q, k, n) {
        return true;
    }
    far_before(t, q, p, k, n)
}

// Whether the side of p and q, which no end has, is counted elsewhere than at the vertex at v, in slot k; seen tells whether its face was counted before.
fn across_else(t: &[u8], v: Point, p: Point, q: Point, seen: bool, k: usize, n: usize) -> bool
    requires in_order { InOrder t.now × ((n ≡ slots_of t.now) × (k < n)) }
    requires star_point { StarPoint p × StarPoint q }
    requires spared_across { SparedAcross t.now k v p q seen }
    ensures { result ≡ across_else t.now k v p q }
{
    let left = apex(p, q);
    let right = apex(q, p);
    if same_point(v, left) {
        return apex_seen(t, p, q, right, k, n);
    }
    if same_point(v, right) {
        return apex_seen(t, p, q, left, k, n);
    }
    if seen {
        return true;
    }
    narrow_else(t, p, q, left, right, k, n)
}

// Whether one of the ends of a side has it.
fn end_has(t: &[u8], p: Placed, q: Placed, n: usize) -> bool
    requires in_order { InOrder t.now × (n ≡ slots_of t.now) }
    requires slot_value { (p.slot ≡ slot_in t.now p.at) × (q.slot ≡ slot_in t.now q.at) }
    ensures { result ≡ end_has t.now p.at q.at }
{
    if near_in(t, q.at, p.slot, n, n) {
        return true;
    }
    near_in(t, p.at, q.slot, n, n)
}

// 1 where the side of p and q, across from the vertex at v in slot k, is counted there, else 0; known tells that an end has it, seen whether its face
// was counted before.
fn far_one(
    t: &[u8],
    v: Point,
    p: Placed,
    q: Placed,
    known: bool,
    seen: bool,
    k: usize,
    n: usize,
) -> u32
    requires in_order { InOrder t.now × ((n ≡ slots_of t.now) × (k < n)) }
    requires star_point { StarPoint p.at × StarPoint q.at }
    requires slot_value { (p.slot ≡ slot_in t.now p.at) × (q.slot ≡ slot_in t.now q.at) }
    requires at_value { known ≡ true → end_has t.now p.at q.at ≡ true }
    requires spared { Spared t.now k v p.at q.at seen }
    ensures { (result ≡ far_one t.now k v p.at q.at) × (result ≤ 1) }
{
    if known {
        return 0;
    }
    if end_has(t, p, q, n) {
        return 0;
    }
    let a = p.at;
    let b = q.at;
    let elsewhere = across_else(t, v, a, b, seen, k, n);
    u32::from(!elsewhere)
}

// How many of the two sides across corner j of v, in slot k, are counted there: from a and from b, beside it, to its opposite o; fits tells what these
// are known to have.
pub fn far_count(
    t: &[u8],
    v: Record,
    j: u8,
    a: Placed,
    o: Placed,
    b: Placed,
    fits: Fits,
    seen: bool,
    k: usize,
    n: usize,
) -> u32
    requires in_order { InOrder t.now × ((n ≡ slots_of t.now) × (k < n)) }
    requires inner { Inner v × (j < v.d) }
    requires round { Round t.now v j a o b }
    requires told_round { ToldRound t.now v j a o b fits }
    requires spared { Spared t.now k v.at a.at o.at seen × Spared t.now k v.at b.at o.at seen }
    ensures { (result ≡ far_count t.now k v j) × (result ≤ 2) }
{
    let p = v.at;
    let before = far_one(
        t,
        p,
        a,
        o,
        (0 < fits.adjacent) | (0 < fits.opposite),
        seen,
        k,
        n,
    );
    let after = far_one(
        t,
        p,
        b,
        o,
        (0 < fits.next) | (0 < fits.opposite),
        seen,
        k,
        n,
    );
    before + after
}
