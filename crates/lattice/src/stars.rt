// The star of a record: its adjacent points and the opposites of its corners, without any mesh.
ghost use Rattle.std.specs.Prelude.{◌≡◌, ◌+◌, ◌/◌, ◌<◌, true};
ghost use Rattle.lattice.specs.AnswerRowLaws.{six_numbers};
ghost use Rattle.lattice.specs.AnswerRows.{answer_numbers};
ghost use Rattle.lattice.specs.Arms.{regular_of};
ghost use Rattle.lattice.specs.Points.{pt};
ghost use Rattle.lattice.specs.Stars.{given, step_of, adjacent_at, first_at, second_at, star_of, nowhere};
ghost use Rattle.lattice.specs.Bounds.{Small, Near};
ghost use Rattle.lattice.specs.RecordLaws.{Inner};
ghost use Rattle.lattice.specs.Refusals.{number_told};

use crate::arms::{first_arm, next_arm, regular};
use crate::patterns::{adjacent, first_opposite, second_opposite};
use crate::points::{Depth, Point, added, sum};
use crate::records::{Level, Record, valid};
use crate::refusals::Refusal;
use crate::rows::{ANSWER_NUMBERS, put_point, refuse_answer};

// What the star call and the queries answer: document 01's number, the count, and six points of which the unused are [0, 0, 0]. It is no Result: `star_of`
// and `query_of`, which promises cite, give it, and no code makes one.
#[derive(Clone, Copy)]
pub struct Answer {
    pub number: u8,
    pub count: u8,
    pub points: [Point; 6],
}

// A pattern point's depth at a star's level: up by half the level, rounded down. No depth can stand in the level's place.
pub fn scaled(n: Level, q: Depth) -> Depth
    requires { q.0 + n.0 < 256 }
    ensures { result.0 ≡ q.0 + n.0 / 2 }
{
    Depth(q.0 + n.0 / 2)
}

// From [a, b, m], by the pattern point [x, y, q] at level n. It takes numbers: a struct is copied whole at a call, which waits for what was written
// into it.
pub fn step(a: i32, b: i32, m: Depth, n: Level, x: i32, y: i32, q: Depth) -> Point
    requires { Small (pt a b m.0) × Near n (pt x y q.0) }
    ensures { result ≡ step_of (pt a b m.0) n (pt x y q.0) }
{
    sum(a, b, m, x, y, scaled(n, q))
}

// The adjacent point at place j of a record's star.
pub fn adjacent_of(r: Record, j: u8) -> Point
    requires { Inner r × (j < r.d) }
    ensures { result ≡ adjacent_at r j }
{
    let v = r.at;
    let m = v.m;
    let n = r.n;
    let p = adjacent(r.d, r.k, j);
    let q = p.m;
    step(v.a, v.b, m, n, p.a, p.b, q)
}

// The first opposite of corner j.
pub fn first_of(r: Record, j: u8) -> Point
    requires { Inner r × (j < r.d) }
    ensures { result ≡ first_at r j }
{
    let v = r.at;
    let m = v.m;
    let n = r.n;
    let p = first_opposite(r.d, r.k, j);
    let q = p.m;
    step(v.a, v.b, m, n, p.a, p.b, q)
}

// The second opposite of corner j, or none.
pub fn second_of(r: Record, j: u8) -> Option<Point>
    requires { Inner r × (j < r.d) }
    ensures { result ≡ second_at r j }
{
    let v = r.at;
    let m = v.m;
    let n = r.n;
    match second_opposite(r.d, r.k, j) {
        Some(p) => {
            let q = p.m;
            Some(step(v.a, v.b, m, n, p.a, p.b, q))
        }
        None => None,
    }
}

// Puts the adjacent points of a regular star.
fn put_regular(out: &mut [i32; ANSWER_NUMBERS], v: Record)
    requires inner { Inner v }
    requires d_value { regular_of v.d ≡ true }
    requires out_value { out.old ≡ six_numbers v.d (λ i. nowhere) }
    ensures { out.new ≡ answer_numbers (given v) }
{
    let mut w = first_arm(v);
    for j in 0..v.d {
        put_point(out, 3 * (j as usize) + 1, added(w));
        w = next_arm(w, v.d);
    }
}

// Puts the adjacent points of any star. One function for this and `put_regular` would be no plainer: they share the loop alone. What `adjacent_of` does stands
// here itself, since a struct that crosses a call is copied whole.
fn put_each(out: &mut [i32; ANSWER_NUMBERS], v: Record)
    requires inner { Inner v }
    requires out_value { out.old ≡ six_numbers v.d (λ i. nowhere) }
    ensures { out.new ≡ answer_numbers (given v) }
{
    let d = v.d;
    for j in 0..d {
        let at = v.at;
        let m = at.m;
        let n = v.n;
        let p = adjacent(d, v.k, j);
        let q = p.m;
        put_point(
            out,
            3 * (j as usize) + 1,
            step(at.a, at.b, m, n, p.a, p.b, q),
        );
    }
}

// The whole star of a record, in a lent row: its count and its adjacent points in star order, zeros past the last.
pub fn ring(out: &mut [i32; ANSWER_NUMBERS], v: Record)
    requires { Inner v }
    ensures { out.new ≡ answer_numbers (given v) }
{
    let d = v.d;
    *out = [0; ANSWER_NUMBERS];
    out[0] = d as i32;
    if regular(d) {
        put_regular(out, v);
    } else {
        put_each(out, v);
    }
}

// The star of any six fields, in a lent row: 9 where they are no valid record, 14 where the degree is 0, else the adjacent points in star order.
// Refused, the row is all zeros.
pub fn star(out: &mut [i32; ANSWER_NUMBERS], r: Record) -> Result<(), Refusal>
    ensures value { number_told result ≡ (star_of r).number }
    ensures out_after { out.new ≡ answer_numbers (star_of r) }
{
    if !valid(r) {
        return refuse_answer(out, Refusal::NotValid);
    }
    let d = r.d;
    if d == 0 {
        return refuse_answer(out, Refusal::Boundary);
    }
    ring(out, r);
    Ok(())
}
