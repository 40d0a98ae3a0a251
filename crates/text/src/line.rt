// A record's line: a, b, m, d, k, n in decimal, parted by single tabs, ended by a line feed.
ghost use Rattle.std.specs.Prelude.{◌≡◌, ◌+◌, ◌≤◌, length};
ghost use Rattle.laws.specs.Stores.{Wrote};
ghost use Rattle.text.specs.Line.{point_text, star_text, line_of, place_at, star_at, spelled_at, line_at};

use crate::decimal::{number_back, read_number, read_signed, signed_back, signed_width, width};
use lattice::{Depth, Level, Point, Record, valid};

pub const TAB: u8 = b'\t';

pub const FEED: u8 = b'\n';

// The most that a numerator, and any other field, is read as: a record past these is not valid, so it is refused unread.
const FAR: u32 = 9999999;

const NEAR: u32 = 255;

// What stands where a line is looked for: a record and the position past its line feed; no line of a record; nothing, the file being at its end.
#[derive(Clone, Copy)]
pub enum Line {
    Good(Record, usize),
    Bad,
    End,
}

// The point at a position, a, b and m, each with a tab after it, and the position past the last, or none.
pub fn read_point(t: &[u8], at: usize) -> Option<(Point, usize)>
    ensures { result ≡ place_at t.now at }
{
    let (a, past_a) = read_signed(t, at, FAR, TAB)?;
    let (b, past_b) = read_signed(t, past_a, FAR, TAB)?;
    let (m, past_m) = read_number(t, past_b, NEAR, TAB)?;
    let m = Depth(m as u8);
    Some((Point { a, b, m }, past_m))
}

// The record of the vertex at p with the rest of its line, d and k, each with a tab after it, and n with the line feed; the position past it; or none.
fn read_star(t: &[u8], at: usize, p: Point) -> Option<(Record, usize)>
    ensures { result ≡ star_at t.now at p }
{
    let (d, past_d) = read_number(t, at, NEAR, TAB)?;
    let (k, past_k) = read_number(t, past_d, NEAR, TAB)?;
    let (n, next) = read_number(t, past_k, NEAR, FEED)?;
    Some((
        Record {
            at: p,
            d: d as u8,
            k: k as u8,
            n: Level(n as u8),
        },
        next,
    ))
}

// The line at a position, its record valid or not.
pub fn spelled(t: &[u8], at: usize) -> Line
    ensures { result ≡ spelled_at t.now at }
{
    if t.len() <= at {
        return Line::End;
    }
    let Some((p, past_m)) = read_point(t, at) else {
        return Line::Bad;
    };
    match read_star(t, past_m, p) {
        Some((r, next)) => Line::Good(r, next),
        None => Line::Bad,
    }
}

// The line of a valid record at a position.
pub fn parse_line(t: &[u8], at: usize) -> Line
    ensures { result ≡ line_at t.now at }
{
    match spelled(t, at) {
        Line::End => Line::End,
        Line::Bad => Line::Bad,
        Line::Good(r, next) => {
            if valid(r) {
                Line::Good(r, next)
            } else {
                Line::Bad
            }
        }
    }
}

// How many bytes a point's three fields have.
pub fn point_length(p: Point) -> usize
    ensures { (result ≡ length (point_text p)) × (result ≤ 35) }
{
    signed_width(p.a) + signed_width(p.b) + width(p.m.0 as u32) + 3
}

// How many bytes a record's line has.
pub fn line_length(r: Record) -> usize
    ensures { result ≡ length (line_of r) }
{
    let star = width(r.d as u32) + width(r.k as u32) + width(r.n.0 as u32);
    point_length(r.at) + star + 3
}

// Writes a point's three fields before a position, from the last back, and gives the position of the first.
pub fn point_back(out: &mut [u8], end: usize, p: Point) -> usize
    requires { (length (point_text p) ≤ end) × (end ≤ length out.old) }
    ensures { Wrote out.old result (point_text p) out.new end }
{
    let past_b = number_back(out, end, p.m.0 as u32, TAB);
    let past_a = signed_back(out, past_b, p.b, TAB);
    signed_back(out, past_a, p.a, TAB)
}

// Writes the rest of a record's line before a position, and gives the position of its first field.
fn star_back(out: &mut [u8], end: usize, d: u8, k: u8, n: u8) -> usize
    requires { (length (star_text d k n) ≤ end) × (end ≤ length out.old) }
    ensures { Wrote out.old result (star_text d k n) out.new end }
{
    let past_k = number_back(out, end, n as u32, FEED);
    let past_d = number_back(out, past_k, k as u32, TAB);
    number_back(out, past_d, d as u32, TAB)
}

// Writes a record's line, its line feed before a position, and gives the position where it begins: no width has to be known.
pub fn write_line_back(out: &mut [u8], end: usize, r: Record) -> usize
    requires { (length (line_of r) ≤ end) × (end ≤ length out.old) }
    ensures { Wrote out.old result (line_of r) out.new end }
{
    let p = r.at;
    let past_m = star_back(out, end, r.d, r.k, r.n.0);
    point_back(out, past_m, p)
}
