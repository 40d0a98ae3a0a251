// Where a vertex across from a side can stand: eight places seen from either end, each by a turn and a length from the side itself.
#![tactic(auto)]

ghost use Rattle.std.specs.Prelude.{◌≡◌, ◌≤◌, ◌<◌, nat_abs};
ghost use Rattle.lattice.specs.Points.{lift};
ghost use Rattle.across.specs.Across.{StarPoint, factor, factor_of, along_of, across_of, apex_of};

use lattice::{Depth, Point, normalise, power};

// No point of a star is deeper.
const DEEPEST: Depth = Depth(7);

// A numerator of depth m, brought to depth d.
fn raised(x: i32, m: Depth, d: Depth) -> i32
    requires { (m.0 ≤ d.0) × ((d.0 ≤ 7) × (nat_abs x ≤ 600000)) }
    ensures { result ≡ lift x m.0 d.0 }
{
    x * power(d.0 - m.0)
}

// From [a, b, 7] by [e, h, 7] times (x + yw)/3.
fn along(x: i32, y: i32, a: i32, b: i32, e: i32, h: i32) -> Point
    requires x_bound { (nat_abs x ≤ 6) × (nat_abs y ≤ 6) }
    requires a_bound { (nat_abs a ≤ 600000) × (nat_abs b ≤ 600000) }
    requires e_bound { (nat_abs e ≤ 1200000) × (nat_abs h ≤ 1200000) }
    ensures { result ≡ along_of (factor x y) a b e h }
{
    normalise(3 * a + (x * e - y * h), 3 * b + (y * e + (x + y) * h), 8)
}

// The eight factors x + yw: w, w squared, their sum and a third of it; then the same the other way round.
fn factor(c: u8) -> (i32, i32)
    requires { c < 8 }
    ensures x_value { result.0 ≡ (factor_of c).x }
    ensures y_value { result.1 ≡ (factor_of c).y }
{
    match c {
        0 => (0, 3),
        1 => (-3, 3),
        2 => (-3, 6),
        3 => (-1, 2),
        4 => (3, -3),
        5 => (0, -3),
        6 => (3, -6),
        _ => (1, -2),
    }
}

// From p by the way to q times factor c.
pub fn across(p: Point, q: Point, c: u8) -> Point
    requires { StarPoint p × (StarPoint q × (c < 8)) }
    ensures { result ≡ across_of (factor_of c) p q }
{
    let (x, y) = factor(c);
    let a = raised(p.a, p.m, DEEPEST);
    let b = raised(p.b, p.m, DEEPEST);
    let e = raised(q.a, q.m, DEEPEST) - a;
    let h = raised(q.b, q.m, DEEPEST) - b;
    along(x, y, a, b, e, h)
}

// The third corner of the triangle with equal sides to the left of the way from p to q.
pub fn apex(p: Point, q: Point) -> Point
    requires { StarPoint p × StarPoint q }
    ensures { result ≡ apex_of p q }
{
    let d = Depth(p.m.0.max(q.m.0));
    let a = raised(p.a, p.m, d);
    let b = raised(p.b, p.m, d);
    let x = raised(q.a, q.m, d);
    let y = raised(q.b, q.m, d);
    normalise(a + b - y, x + y - a, d.0)
}
