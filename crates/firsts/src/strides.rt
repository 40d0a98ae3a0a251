// Strides, the ways from a vertex to an adjacent point and from there to an opposite, each as one number: sixteen times the level, from 1 on, and the
// direction. Whether another vertex has a corner with the points of a face is then a comparison of small numbers: no point is worked out, none
// searched for.
ghost use Rattle.std.specs.Prelude.{◌≡◌, ◌%◌, ◌≤◌, ◌<◌, IfSome};
ghost use Rattle.lattice.specs.RecordLaws.{Inner};
ghost use Rattle.firsts.specs.Strides.{row_of, adjacent_row, side_row, other_row, stride_of, back_of, Fit};

use crate::faces::next_place;
use lattice::{Level, Record};

// The row of degree d.
fn row(d: u8, three: u64, four: u64, five: u64, six: u64) -> u64
    ensures { result ≡ row_of d three four five six }
{
    match d {
        3 => three,
        4 => four,
        5 => five,
        _ => six,
    }
}

// The strides of a star at orientation 0 and level 0, six bits a place from the lowest on, 63 where there is none: to the adjacent points.
pub fn adjacents(d: u8) -> u64
    ensures { result ≡ adjacent_row d }
{
    row(d, 0x18510, 0xa67510, 0x299e58d0, 0x698594490)
}

// From the adjacent point of a corner to its first or second opposite.
pub fn sides(d: u8, second: bool) -> u64
    ensures { result ≡ side_row d second }
{
    if second {
        row(d, 0xb1c3, 0xfe9fc3, 0x3fa6797f, 0x41a616512)
    } else {
        row(d, 0x10614, 0xafa614, 0x2beb8d94, 0x86ba67963)
    }
}

// From the next adjacent point to it.
pub fn others(d: u8, second: bool) -> u64
    ensures { result ≡ other_row d second }
{
    if second {
        row(d, 0x9141, 0xfe7fc1, 0x3f9e58ff, 0x698594490)
    } else {
        row(d, 0x18510, 0x636950, 0x18db4ca1, 0xa6796386b)
    }
}

// The stride at place j of a row, at orientation k and level n; 0, which `stride_of` has and no stride equals, where there is none.
pub fn stride(row: u64, j: u8, k: u8, n: Level) -> u8
    requires { (j < 6) × ((k < 12) × (n.0 ≤ 12)) }
    ensures { (result ≡ stride_of row j k n.0) × (result % 16 < 12) }
{
    let r = ((row >> (6 * j)) % 64) as u8;
    if r == 63 {
        return 0;
    }
    16 * (n.0 + r / 16) + (k + r % 16) % 12
}

// The same stride the other way.
pub fn back(c: u8) -> u8
    requires { c % 16 < 12 }
    ensures { result ≡ back_of c }
{
    if c % 16 < 6 { c + 6 } else { c - 6 }
}

// A direction that has gone round once at most.
fn round(e: u8) -> u8
    requires { e < 28 }
    ensures { result < 16 }
{
    if e < 12 { e } else { e - 12 }
}

// The place of a star of degree d that has a direction at orientation 0, if one has: it only guides the search for a stride.
fn place_near(d: u8, e: u8) -> u8
    requires { e < 16 }
{
    let places = row(
        d,
        0xfff2fff1fff0,
        0xff3f2ff1fff0,
        0xff4f3f2f1ff0,
        0xf5f4f3f2f1f0,
    );
    ((places >> (4 * e)) % 16) as u8
}

// The place of a star's row that has this stride, if it is the one that is tried. It is right whatever place is tried.
fn place_of(row: u64, d: u8, k: u8, n: Level, c: u8) -> Option<u8>
    requires { (d ≤ 6) × ((k < 12) × (n.0 ≤ 12)) }
    ensures { IfSome result (λ i. (i < d) × (stride_of row i k n.0 ≡ c)) }
{
    let i = place_near(d, round(c % 16 + 12 - k));
    if i < d && stride(row, i, k, n) == c {
        Some(i)
    } else {
        None
    }
}

// Whether a corner of u has the strides x and y to its adjacent points and z from the first of them to an opposite: 2 where that is the first opposite,
// 1 where it is the second, 0 where no corner was found.
pub fn fit(u: Record, x: u8, y: u8, z: u8) -> u8
    requires { Inner u × (u.k < 12) }
    ensures { Fit u x y z result }
{
    let d = u.d;
    let k = u.k;
    let n = u.n;
    let Some(i) = place_of(adjacents(d), d, k, n, x) else {
        return 0;
    };
    if stride(adjacents(d), next_place(d, i), k, n) != y {
        return 0;
    }
    if stride(sides(d, false), i, k, n) == z {
        return 2;
    }
    if stride(sides(d, true), i, k, n) == z {
        return 1;
    }
    0
}
