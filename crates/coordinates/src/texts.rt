// A coordinate's text, and a vertex's: x, y and 0.0000, written from the end back.
ghost use Rattle.std.specs.Prelude.{◌≡◌, ◌+◌, ◌≤◌, nat_abs, length};
ghost use Rattle.laws.specs.Stores.{Wrote};
ghost use Rattle.lattice.specs.Points.{pt};
ghost use Rattle.text.specs.Near.{widest};
ghost use Rattle.text.specs.LineOrder.{Close};
ghost use Rattle.coordinates.specs.Coordinates.{near_y, flat, decimals, coordinate, text_x, position_text};

use crate::near::{across, near_x, near_y};
use lattice::{Point, size};
use text::{number_back, width, write_bytes};

// Between the numbers of a line.
pub const BLANK: u8 = b' ';

const DOT: u8 = b'.';

// The ten-thousandths of a whole.
const WHOLE: u32 = 10000;

// The third coordinate, and the line's end.
const FLAT: [u8; 7] = [b'0', b'.', b'0', b'0', b'0', b'0', b'\n'];

// A digit's byte.
fn digit(d: u32) -> u8
    requires { d ≤ 9 }
    ensures { result ≡ 48 + d }
{
    b'0' + d as u8
}

// How many bytes a coordinate has: at most seven digits before the point.
fn coordinate_length(z: i32, n: u32) -> usize
    ensures { (result ≡ length (coordinate z n)) × (result ≤ 17) }
{
    let w = width(n / WHOLE) + 6;
    if z < 0 { w + 1 } else { w }
}

// How many bytes x has.
fn x_length(a: i32, b: i32, m: u8) -> usize
    requires { Close (pt a b m) }
    ensures { (result ≡ length (text_x (pt a b m))) × (result ≤ 17) }
{
    let s = across(a, b);
    coordinate_length(s, near_x(size(s), m))
}

// How many bytes y has.
fn y_length(b: i32, m: u8) -> usize
    requires { (nat_abs b ≤ widest) × (m ≤ 6) }
    ensures { (result ≡ length (coordinate b (near_y (nat_abs b) m))) × (result ≤ 17) }
{
    coordinate_length(b, near_y(size(b), m))
}

// How many bytes the line of a vertex at p has.
pub fn position_length(p: Point) -> usize
    requires { Close p }
    ensures { (result ≡ length (position_text p)) × (result ≤ 41) }
{
    x_length(p.a, p.b, p.m.0) + y_length(p.b, p.m.0) + 7
}

// Writes ten-thousandths with their point and the blank after them, before a position, and gives the position of the first digit.
fn decimals_back(out: &mut [u8], end: usize, n: u32) -> usize
    requires { (length (decimals n) ≤ end) × (end ≤ length out.old) }
    ensures { Wrote out.old result (decimals n) out.new end }
{
    let f = n % WHOLE;
    let at = end - 5;
    let tail = [
        digit(f / 1000),
        digit(f / 100 % 10),
        digit(f / 10 % 10),
        digit(f % 10),
        BLANK,
    ];
    write_bytes(out, at, &tail);
    number_back(out, at, n / WHOLE, DOT)
}

// The same with a sign.
fn coordinate_back(out: &mut [u8], end: usize, z: i32, n: u32) -> usize
    requires { (length (coordinate z n) ≤ end) × (end ≤ length out.old) }
    ensures { Wrote out.old result (coordinate z n) out.new end }
{
    if z < 0 {
        let at = decimals_back(out, end, n) - 1;
        out[at] = b'-';
        return at;
    }
    decimals_back(out, end, n)
}

// Writes 0.0000 and the line's end before a position.
fn flat_back(out: &mut [u8], end: usize) -> usize
    requires { (7 ≤ end) × (end ≤ length out.old) }
    ensures { Wrote out.old result flat out.new end }
{
    let at = end - 7;
    write_bytes(out, at, &FLAT);
    at
}

// Writes x before a position, and gives the position where it begins.
fn x_back(out: &mut [u8], end: usize, a: i32, b: i32, m: u8) -> usize
    requires { Close (pt a b m) × ((length (text_x (pt a b m)) ≤ end) × (end ≤ length out.old)) }
    ensures { Wrote out.old result (text_x (pt a b m)) out.new end }
{
    let s = across(a, b);
    let n = near_x(size(s), m);
    coordinate_back(out, end, s, n)
}

// Writes y before a position, and gives the position where it begins.
fn y_back(out: &mut [u8], end: usize, b: i32, m: u8) -> usize
    requires { ((nat_abs b ≤ widest) × (m ≤ 6)) × ((length (coordinate b (near_y (nat_abs b) m)) ≤ end) × (end ≤ length out.old)) }
    ensures { Wrote out.old result (coordinate b (near_y (nat_abs b) m)) out.new end }
{
    let n = near_y(size(b), m);
    coordinate_back(out, end, b, n)
}

// Writes the line of a vertex at p before a position, and gives the position where it begins.
pub fn position_back(out: &mut [u8], end: usize, p: Point) -> usize
    requires { Close p × ((length (position_text p) ≤ end) × (end ≤ length out.old)) }
    ensures { Wrote out.old result (position_text p) out.new end }
{
    let past_y = flat_back(out, end);
    let past_x = y_back(out, past_y, p.b, p.m.0);
    x_back(out, past_x, p.a, p.b, p.m.0)
}
