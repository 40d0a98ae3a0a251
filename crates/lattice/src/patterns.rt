// The star patterns, a constant table for each degree, and their turns: document 01, "The twelve directions". Orientations 0 and 1 are kept, in bytes;
// the others are these, turned by 60 degrees when asked.
ghost use Rattle.std.specs.Prelude.{◌≡◌, ◌+◌, ◌*◌, ◌%◌, ◌/◌, ◌≤◌, ◌<◌};
ghost use Rattle.lattice.specs.Points.{turn60_of, turns};
ghost use Rattle.lattice.specs.Patterns.{pattern_of, adjacent_of, first_opposite_of, second_opposite_of};
ghost use Rattle.lattice.specs.Bounds.{Hex};
ghost use Rattle.lattice.specs.Rows.{held, point_of, part_of, orient_row, table_of};

use crate::points::{Depth, Point};

// A point [a, b, m] in bytes: every numerator of the tables is within 6 of zero.
#[derive(Clone, Copy)]
struct P(i8, i8, u8);

// The constant tables, one a degree, a row a line: adjacent | first opposite | second opposite, three numbers each. The places stand in counter-clockwise
// order, each a row at orientation 0 and below it the same under the 30 degree rule, which is its row at orientation 1. Where there is no second opposite
// the vertex itself stands, 0, 0, 0.
const THREE: [[i8; 9]; 6] = [
    [1, 0, 0, 0, 1, 0, 0, 2, 0],
    [1, 1, 1, -1, 2, 1, -2, 4, 1],
    [-1, 1, 0, -1, 0, 0, -2, 0, 0],
    [-2, 1, 1, -1, -1, 1, -2, -2, 1],
    [0, -1, 0, 1, -1, 0, 2, -2, 0],
    [1, -2, 1, 2, -1, 1, 4, -2, 1],
];

const FOUR: [[i8; 9]; 8] = [
    [1, 0, 0, 0, 1, 0, 0, 2, 0],
    [1, 1, 1, -1, 2, 1, -2, 4, 1],
    [-1, 1, 0, -1, 0, 0, 0, 0, 0],
    [-2, 1, 1, -1, -1, 1, 0, 0, 0],
    [-1, -1, 1, 0, -2, 1, 0, -1, 0],
    [0, -3, 2, 2, -4, 2, 1, -2, 1],
    [1, -2, 1, 1, -1, 0, 0, 0, 0],
    [3, -3, 2, 2, -1, 1, 0, 0, 0],
];

const FIVE: [[i8; 9]; 10] = [
    [1, 0, 0, 0, 1, 0, 0, 0, 0],
    [1, 1, 1, -1, 2, 1, 0, 0, 0],
    [-1, 2, 1, -2, 2, 1, -1, 1, 0],
    [-3, 3, 2, -4, 2, 2, -2, 1, 1],
    [-2, 1, 1, -2, 0, 1, -1, 0, 0],
    [-3, 0, 2, -2, -2, 2, -1, -1, 1],
    [-1, -1, 1, 0, -2, 1, 0, -1, 0],
    [0, -3, 2, 2, -4, 2, 1, -2, 1],
    [1, -2, 1, 1, -1, 0, 0, 0, 0],
    [3, -3, 2, 2, -1, 1, 0, 0, 0],
];

// Each place is the one before it, turned by 60 degrees.
const SIX: [[i8; 9]; 12] = [
    [1, 0, 0, 2, 2, 1, 1, 1, 0],
    [1, 1, 1, 0, 6, 2, 0, 3, 1],
    [0, 1, 0, -2, 4, 1, -1, 2, 0],
    [-1, 2, 1, -6, 6, 2, -3, 3, 1],
    [-1, 1, 0, -4, 2, 1, -2, 1, 0],
    [-2, 1, 1, -6, 0, 2, -3, 0, 1],
    [-1, 0, 0, -2, -2, 1, -1, -1, 0],
    [-1, -1, 1, 0, -6, 2, 0, -3, 1],
    [0, -1, 0, 2, -4, 1, 1, -2, 0],
    [1, -2, 1, 6, -6, 2, 3, -3, 1],
    [1, -1, 0, 4, -2, 1, 2, -1, 0],
    [2, -1, 1, 6, 0, 2, 3, 0, 1],
];

// Which point of a row.
const ADJACENT: usize = 0;

const FIRST: usize = 1;

const SECOND: usize = 2;

// The table of degree d.
fn table(d: u8) -> &'static [[i8; 9]]
    requires { (3 ≤ d) × (d ≤ 6) }
    ensures { result.now ≡ table_of d }
{
    match d {
        3 => &THREE,
        4 => &FOUR,
        5 => &FIVE,
        _ => &SIX,
    }
}

// Point c of place j of degree d, at orientation 1 where k is odd, else at orientation 0.
fn pattern(d: u8, k: u8, j: u8, c: usize) -> P
    requires le_d { (3 ≤ d) × ((d ≤ 6) × (j < d)) }
    requires c_bound { c < 3 }
    ensures { point_of result ≡ part_of c (orient_row (k % 2) (pattern_of d j)) }
{
    let i = (2 * j + k % 2) as usize;
    let row = &table(d)[i];
    P(row[3 * c], row[3 * c + 1], row[3 * c + 2] as u8)
}

// Turned by 60 degrees, in bytes: widened before, the tables would be compiled to numbers of four bytes.
fn turn(p: P) -> P
    requires { Hex 10 (point_of p) }
    ensures { point_of result ≡ turn60_of (point_of p) }
{
    P(-p.1, p.0 + p.1, p.2)
}

// From orientation 0 or 1 to orientation k: turned by 60 degrees once for every two.
fn turned(p: P, k: u8) -> P
    requires { Hex 10 (point_of p) }
    ensures { point_of result ≡ turns (k / 2) (point_of p) }
{
    let mut q = p;
    for _ in 0..k / 2 {
        q = turn(q);
    }
    q
}

// The point that three numbers of a table are.
fn point(p: P) -> Point
    ensures { result ≡ point_of p }
{
    Point {
        a: p.0 as i32,
        b: p.1 as i32,
        m: Depth(p.2),
    }
}

// The adjacent point at place j of degree d and orientation k.
pub fn adjacent(d: u8, k: u8, j: u8) -> Point
    requires { (3 ≤ d) × ((d ≤ 6) × (j < d)) }
    ensures { result ≡ adjacent_of d k j }
{
    point(turned(pattern(d, k, j, ADJACENT), k))
}

// The adjacent point at place 0 of orientation k, which is the same at each degree: [1, 0, 0], by the 30 degree rule [1, 1, 1], turned.
pub fn foremost(k: u8) -> Point
    ensures { result ≡ adjacent_of 6 k 0 }
{
    let h = k % 2;
    point(turned(P(1, h as i8, h), k))
}

// The first opposite of corner j.
pub fn first_opposite(d: u8, k: u8, j: u8) -> Point
    requires { (3 ≤ d) × ((d ≤ 6) × (j < d)) }
    ensures { result ≡ first_opposite_of d k j }
{
    point(turned(pattern(d, k, j, FIRST), k))
}

// The second opposite of corner j as the tables have it: the vertex itself where there is none.
pub fn farther(d: u8, k: u8, j: u8) -> Point
    requires { (3 ≤ d) × ((d ≤ 6) × (j < d)) }
    ensures { result ≡ held (second_opposite_of d k j) }
{
    point(turned(pattern(d, k, j, SECOND), k))
}

// The second opposite of corner j, or none. Asked past the turns: before them, the compiler would make branches of the table.
pub fn second_opposite(d: u8, k: u8, j: u8) -> Option<Point>
    requires { (3 ≤ d) × ((d ≤ 6) × (j < d)) }
    ensures { result ≡ second_opposite_of d k j }
{
    let p = farther(d, k, j);
    if p.a == 0 && p.b == 0 {
        return None;
    }
    Some(p)
}
