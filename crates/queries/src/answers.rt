// The two calls. Their answer goes into a lent row; refused, it is count 0 and all zeros.
ghost use Rattle.std.specs.Prelude.{◌≡◌, true};
ghost use Rattle.lattice.specs.Arms.{regular_of};
ghost use Rattle.lattice.specs.Refusals.{number_told};
ghost use Rattle.lattice.specs.Stars.{given};
ghost use Rattle.table.specs.Slots.{Table};
ghost use Rattle.table.specs.Order.{in_order_of};
ghost use Rattle.queries.specs.Queries.{adjacents_there, corners_there, faces_given, query_of, neighbours_of, faces_of};
ghost use Rattle.queries.specs.Asked.{Asked, answer_at, slot_answer, when_true};
ghost use Rattle.lattice.specs.AnswerRows.{answer_numbers};

use crate::opposites::{adjacents_there, chosen, opposite_by};
use lattice::{
    ANSWER_NUMBERS, Record, Refusal, added, far_arm, first_arm, near_arm, next_arm, put_point,
    refuse_answer, regular, ring,
};
use table::{held_in, in_order, slot_by_guess, slots_of, stands};

// What is asked of a vertex. No closure: `answer_at`, which the promises cite, goes by what is asked.
#[derive(Clone, Copy)]
pub enum Query {
    Neighbours,
    Faces,
}

// Puts the star of a vertex whose star is regular, each adjacent point as it is looked for, up to the first that is not in the table.
fn regular_there(t: &[u8], v: Record, n: usize, out: &mut [i32; ANSWER_NUMBERS]) -> bool
    requires asked { Asked t.now n v }
    requires d_value { regular_of v.d ≡ true }
    ensures value { result ≡ adjacents_there t.now v }
    ensures when_true { when_true result (out.new ≡ answer_numbers (given v)) }
{
    *out = [0; ANSWER_NUMBERS];
    out[0] = i32::from(v.d);
    let mut w = first_arm(v);
    for j in 0..v.d {
        let p = added(w);
        put_point(out, 3 * usize::from(j) + 1, p);
        if !stands(t, p.a, p.b, p.m.0, n) {
            return false;
        }
        w = next_arm(w, v.d);
    }
    true
}

// Puts the star of a vertex, if each adjacent point is in the table.
fn star_there(t: &[u8], v: Record, n: usize, out: &mut [i32; ANSWER_NUMBERS]) -> bool
    requires { Asked t.now n v }
    ensures value { result ≡ adjacents_there t.now v }
    ensures when_true { when_true result (out.new ≡ answer_numbers (given v)) }
{
    if regular(v.d) {
        return regular_there(t, v, n, out);
    }
    ring(out, v);
    adjacents_there(t, out, v, n)
}

// Puts the chosen opposite of each corner of a regular star, up to the first corner with none. Not one function with the next, to which a closure gives
// the opposite: its arms turn from corner to corner, and of a closure that changes what it captures a proof knows nothing.
fn put_regular_opposites(t: &[u8], v: Record, n: usize, out: &mut [i32; ANSWER_NUMBERS]) -> bool
    requires asked { Asked t.now n v }
    requires d_value { regular_of v.d ≡ true }
    requires out_value { out.old ≡ answer_numbers (given v) }
    ensures value { result ≡ corners_there t.now v }
    ensures when_true { when_true result (out.new ≡ answer_numbers (faces_given t.now v)) }
{
    let mut near = near_arm(v);
    let mut far = far_arm(v);
    for j in 0..v.d {
        match opposite_by(t, near, far, n) {
            Some(p) => put_point(out, 3 * usize::from(j) + 1, p),
            None => return false,
        }
        near = next_arm(near, v.d);
        far = next_arm(far, v.d);
    }
    true
}

// Puts the chosen opposite of each corner of any star, up to the first corner with none.
fn put_each_opposite(t: &[u8], v: Record, n: usize, out: &mut [i32; ANSWER_NUMBERS]) -> bool
    requires asked { Asked t.now n v }
    requires out_value { out.old ≡ answer_numbers (given v) }
    ensures value { result ≡ corners_there t.now v }
    ensures when_true { when_true result (out.new ≡ answer_numbers (faces_given t.now v)) }
{
    for j in 0..v.d {
        match chosen(t, v, j, n) {
            Some(p) => put_point(out, 3 * usize::from(j) + 1, p),
            None => return false,
        }
    }
    true
}

// Puts the chosen opposites in the places of the adjacent points, if each corner has one.
fn put_opposites(t: &[u8], v: Record, n: usize, out: &mut [i32; ANSWER_NUMBERS]) -> bool
    requires asked { Asked t.now n v }
    requires out_value { out.old ≡ answer_numbers (given v) }
    ensures value { result ≡ corners_there t.now v }
    ensures when_true { when_true result (out.new ≡ answer_numbers (faces_given t.now v)) }
{
    if regular(v.d) {
        return put_regular_opposites(t, v, n, out);
    }
    put_each_opposite(t, v, n, out)
}

// What a vertex that has a star is answered: its star, if each adjacent point is in the table; asked for its faces, the chosen opposites in its
// place, if each corner has one.
fn answer_at(
    q: Query,
    t: &[u8],
    v: Record,
    n: usize,
    out: &mut [i32; ANSWER_NUMBERS],
) -> Result<(), Refusal>
    requires { Asked t.now n v }
    ensures value { number_told result ≡ (answer_at q t.now v).number }
    ensures out_after { out.new ≡ answer_numbers (answer_at q t.now v) }
{
    if !star_there(t, v, n, out) {
        return refuse_answer(out, Refusal::Torn);
    }
    match q {
        Query::Neighbours => Ok(()),
        Query::Faces => {
            if put_opposites(t, v, n, out) {
                return Ok(());
            }
            refuse_answer(out, Refusal::Torn)
        }
    }
}

// What is answered where the record is in slot i; n says that there is none.
pub fn answer_in_slot(
    q: Query,
    t: &[u8],
    i: usize,
    n: usize,
    out: &mut [i32; ANSWER_NUMBERS],
) -> Result<(), Refusal>
    requires table { Table t.now n }
    requires t_value { in_order_of t.now ≡ true }
    ensures value { number_told result ≡ (slot_answer q t.now n i).number }
    ensures out_after { out.new ≡ answer_numbers (slot_answer q t.now n i) }
{
    if n <= i {
        return refuse_answer(out, Refusal::NoRecord);
    }
    match held_in(t, i) {
        None => refuse_answer(out, Refusal::NoRecord),
        Some(v) => {
            if v.d == 0 {
                return refuse_answer(out, Refusal::Boundary);
            }
            answer_at(q, t, v, n, out)
        }
    }
}

// The query at [a, b, m] in any bytes.
fn answer(
    q: Query,
    t: &[u8],
    a: i32,
    b: i32,
    m: u8,
    out: &mut [i32; ANSWER_NUMBERS],
) -> Result<(), Refusal>
    ensures value { number_told result ≡ (query_of (answer_at q t.now) t.now a b m).number }
    ensures out_after { out.new ≡ answer_numbers (query_of (answer_at q t.now) t.now a b m) }
{
    if !in_order(t) {
        return refuse_answer(out, Refusal::NotInOrder);
    }
    let n = slots_of(t);
    let i = slot_by_guess(t, a, b, m, n, n);
    answer_in_slot(q, t, i, n, out)
}

// The neighbours of the vertex at [a, b, m]: its degree, and its adjacent points in star order. 1: the table is not in order; 3: no record is at
// the point; 14: its degree is 0; 7: an adjacent point is not in the table.
pub fn neighbours(
    table: &[u8],
    a: i32,
    b: i32,
    m: u8,
    points: &mut [i32; ANSWER_NUMBERS],
) -> Result<(), Refusal>
    ensures value { number_told result ≡ (neighbours_of table.now a b m).number }
    ensures points_after { points.new ≡ answer_numbers (neighbours_of table.now a b m) }
{
    answer(Query::Neighbours, table, a, b, m, points)
}

// The faces round the vertex at [a, b, m]: its degree, and the opposite of each corner; with v, adjacent j and the next adjacent, opposite j makes
// face j. Refused as neighbours are, and 7 also where a corner has no opposite in the table.
pub fn faces(
    table: &[u8],
    a: i32,
    b: i32,
    m: u8,
    points: &mut [i32; ANSWER_NUMBERS],
) -> Result<(), Refusal>
    ensures value { number_told result ≡ (faces_of table.now a b m).number }
    ensures points_after { points.new ≡ answer_numbers (faces_of table.now a b m) }
{
    answer(Query::Faces, table, a, b, m, points)
}
