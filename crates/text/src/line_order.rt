// The order of lines as a number for each point, and back.
ghost use Rattle.std.specs.Prelude.{◌≡◌, ◌≤◌, ◌<◌, nat_abs};
ghost use Rattle.text.specs.Near.{widest};
ghost use Rattle.text.specs.LineOrder.{span, lifted, orders, order_of, Close, lowered, point_of};

use lattice::{Depth, Point};

// A numerator of a valid record lies above -MIDDLE and below MIDDLE: with MIDDLE added, above zero and below SPAN, which is twice as much.
const MIDDLE: i32 = 262144;

const SPAN: u64 = 524288;

// SPAN times SPAN.
const SPANS: u64 = 274877906944;

// A numerator moved past zero.
fn lift(z: i32) -> u64
    requires { nat_abs z ≤ widest }
    ensures { (result ≡ lifted z) × (result < span) }
{
    (z + MIDDLE) as u64
}

// The number of a point in the order of lines.
pub fn order(p: Point) -> u64
    requires { Close p }
    ensures { (result ≡ order_of p) × (result < orders) }
{
    let m = p.m.0 as u64;
    let x = lift(p.a);
    let y = lift(p.b);
    (m * SPAN + x) * SPAN + y
}

// What a number leaves below SPAN, moved back.
fn lower(x: u64) -> i32
    ensures { result ≡ lowered x }
{
    (x % SPAN) as i32 - MIDDLE
}

// The point of a number in the order of lines; of another number, some point.
pub fn ordered(n: u64) -> Point
    ensures { result ≡ point_of n }
{
    let a = lower(n / SPAN);
    let b = lower(n);
    let m = (n / SPANS % 256) as u8;
    Point { a, b, m: Depth(m) }
}
