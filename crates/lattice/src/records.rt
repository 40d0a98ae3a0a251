// The six fields of a vertex, and which of them document 01 calls valid.
ghost use Rattle.std.specs.Prelude.{◌≡◌, ◌&&◌, ◌*◌, ◌^◌, ◌≤◌, nat_abs};
ghost use Rattle.lattice.specs.Points.{normal_at};
ghost use Rattle.lattice.specs.Records.{within, orientations_of, suits_of, valid_at, valid_of, nobody};

use crate::points::{Depth, Point, both3, power};

// The level of a star. It belongs to the star and may rise; a depth is no level.
#[derive(Clone, Copy, PartialEq, Eq)]
pub struct Level(pub u8);

// A vertex: its point, degree, orientation and level. Degree 0 marks a boundary vertex.
#[derive(Clone, Copy, PartialEq, Eq)]
pub struct Record {
    pub at: Point,
    pub d: u8,
    pub k: u8,
    pub n: Level,
}

// What stands for a record where there is none: all zeros.
pub fn blank() -> Record
    ensures { result ≡ nobody }
{
    Record {
        at: Point {
            a: 0,
            b: 0,
            m: Depth(0),
        },
        d: 0,
        k: 0,
        n: Level(0),
    }
}

// The size of a number, without its sign.
pub fn size(x: i32) -> u32
    ensures { result ≡ nat_abs x }
{
    x.unsigned_abs()
}

// The most that a numerator may be at depth m: 251 times a power of 3.
fn range(m: u8) -> u32
    requires { m ≤ 6 }
    ensures { result ≡ 251 * 3 ^ m }
{
    251 * (power(m) as u32)
}

// Both numerators of depth m lie in a record's range.
fn in_range(a: i32, b: i32, m: u8) -> bool
    requires { m ≤ 6 }
    ensures { result ≡ within a m && within b m }
{
    let most = range(m);
    (size(a) <= most) & (size(b) <= most)
}

// [a, b, m] is normalised.
fn is_normal(a: i32, b: i32, m: u8) -> bool
    ensures { result ≡ normal_at a b m }
{
    m == 0 || !both3(a, b)
}

// How many orientations the degrees 0, 1, .. 6 have, four bits each from the lowest on: 4, 12, 12, 2 those of 3, 4, 5, 6.
const ORIENTATIONS: u32 = 0x2cc4000;

// How many orientations a degree has: none where no star has it. No branch on the degree, which cannot be foreseen.
fn orientations(d: u8) -> u8
    ensures { result ≡ orientations_of d }
{
    if 6 < d {
        return 0;
    }
    ((ORIENTATIONS >> (4 * d)) % 16) as u8
}

// Degree, orientation and level go together.
fn suits(d: u8, k: u8, n: u8) -> bool
    ensures { result ≡ suits_of d k n }
{
    if d == 0 {
        return k == 0 && n == 0;
    }
    k < orientations(d) && n <= 12 && k % 2 == n % 2
}

fn valid_at(a: i32, b: i32, m: u8, d: u8, k: u8, n: u8) -> bool
    ensures { result ≡ valid_at a b m d k n }
{
    is_normal(a, b, m) && m <= 6 && in_range(a, b, m) && suits(d, k, n)
}

// Whether a record is valid.
pub fn valid(r: Record) -> bool
    ensures { result ≡ valid_of r }
{
    valid_at(r.at.a, r.at.b, r.at.m.0, r.d, r.k, r.n.0)
}
