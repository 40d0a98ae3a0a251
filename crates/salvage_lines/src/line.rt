// A line of an old file: parsed as a record's line of any numbers, normalised, and kept where it is then a valid record.
ghost use Rattle.std.specs.Prelude.{◌≡◌, drop};
ghost use Rattle.lattice.specs.Points.{normal_of};
ghost use Rattle.salvage_lines.specs.OldLines.{may_normalise, orientation_of, tidied, same_record, past_line, piece_at};
ghost use Rattle.salvage_lines.specs.LineLaws.{before_feed};

use lattice::{Point, Record, normalise, same_point, valid};
use text::{FEED, Line, in_limits, spelled};

const LAST_TURN: u8 = 11;

// What is salvaged of a line: its record, normalised, whether that changed a number, and where the next line begins; nothing, and where the next line
// begins; there is no line, the file being at its end.
#[derive(Clone, Copy)]
pub enum Piece {
    Kept(Record, bool, usize),
    Dropped(usize),
    Over,
}

// A record may be normalised, as it is written.
fn may_normalise(r: Record) -> bool
    ensures { result ≡ may_normalise r }
{
    in_limits(r.at) && r.k <= LAST_TURN
}

// The orientation, normalised.
fn orientation(d: u8, k: u8) -> u8
    ensures { result ≡ orientation_of d k }
{
    if d == 3 {
        return k % 4;
    }
    if d == 6 {
        return k % 2;
    }
    k
}

// The point, normalised.
fn normal(p: Point) -> Point
    ensures { result ≡ normal_of p.a p.b p.m.0 }
{
    normalise(p.a, p.b, p.m.0)
}

// The record, normalised.
fn tidy(r: Record) -> Record
    ensures { result ≡ tidied r }
{
    Record {
        at: normal(r.at),
        k: orientation(r.d, r.k),
        ..r
    }
}

// Two records have the same six numbers.
pub fn same_record(r: Record, q: Record) -> bool
    ensures { result ≡ same_record r q }
{
    same_point(r.at, q.at) & ((r.d == q.d) & ((r.k == q.k) & (r.n.0 == q.n.0)))
}

// How many bytes stand before the first line feed.
fn before_feed(rest: &[u8]) -> Option<usize>
    ensures { result ≡ before_feed rest.now }
{
    rest.iter().position(|byte| *byte == FEED)
}

// Where the line at a position ends: past its line feed, or at the end of the file.
fn past_line(file: &[u8], at: usize) -> usize
    ensures { result ≡ past_line file.now at }
{
    if file.len() <= at {
        return at;
    }
    match before_feed(&file[at..]) {
        Some(count) => at + count + 1,
        None => file.len(),
    }
}

// What is salvaged of the line at a position.
pub fn piece_at(file: &[u8], at: usize) -> Piece
    ensures { result ≡ piece_at file.now at }
{
    match spelled(file, at) {
        Line::End => Piece::Over,
        Line::Bad => Piece::Dropped(past_line(file, at)),
        Line::Good(r, next) => {
            let q = tidy(r);
            let kept = may_normalise(r) & valid(q);
            if kept {
                return Piece::Kept(q, !same_record(r, q), next);
            }
            Piece::Dropped(next)
        }
    }
}
