// A vertex's record by what a scan of the pairs saw: document 02, ticket 13.
ghost use Rattle.std.specs.Prelude.{◌≡◌, true, ◌+◌, ◌*◌, ◌-◌, ◌≤◌, ◌<◌, T, length};
ghost use Rattle.lattice.specs.Bounds.{Small};
ghost use Rattle.lattice.specs.Points.{is_normal};
ghost use Rattle.lattice.specs.Ranks.{rank_of, parent_of, creator_of};
ghost use Rattle.growth.specs.Sheets.{vertex, CentreSet};
ghost use Rattle.growth.specs.Model.{by_splits};
ghost use Rattle.centres.specs.Marks.{in_marks};
ghost use Rattle.engine.specs.Engine.{record_by, judged_to};
ghost use Rattle.engine.specs.Scan.{wanted_of, star_seen, tell_by};

use crate::ground::{is_given, is_inside};
use crate::pairs::{Seen, Wanted, scan};
use centres::MARK_BYTES;
use lattice::{Level, Point, Record, birth, parent, rank, valid};

fn filled(p: Point, d: u8, k: u8, n: u8) -> Record
    ensures { result ≡ vertex p d k n }
{
    Record {
        at: p,
        d,
        k,
        n: Level(n),
    }
}

// By which of its parents were subdivided: k its orientation at birth, b the level below its rank, n its level once it has degree 6.
fn by_splits(p: Point, x: bool, y: bool, z: bool, k: u8, b: u8, n: u8) -> Record
    requires { k < 4 }
    ensures { result ≡ by_splits p x y z k b n }
{
    match (x, y, z) {
        (true, true, true) => filled(p, 6, n % 2, n),
        (true, true, false) => filled(p, 5, k + 8, b),
        (true, false, true) => filled(p, 5, k + 4, b),
        (true, false, false) => filled(p, 4, k + 4, b),
        (false, true, true) => filled(p, 5, k, b),
        (false, true, false) => filled(p, 4, k + 8, b),
        (false, false, true) => filled(p, 4, k, b),
        (false, false, false) => filled(p, 3, k, b),
    }
}

// The parent that enters p: the first that could be subdivided a level earlier still.
fn creator(p: Point, first: Point, second: Point, third: Point) -> Point
    requires m_bound { (p.m.0 ≤ 6) × (0 < rank_of p) }
    requires first_value { (first ≡ parent_of p 0) × ((second ≡ parent_of p 1) × (third ≡ parent_of p 2)) }
    ensures { result ≡ creator_of p }
{
    let b = rank(p).0 - 1;
    if rank(first).0 < b {
        return first;
    }
    if rank(second).0 < b {
        return second;
    }
    third
}

// What the record at a point turns on.
fn looked_for(p: Point) -> Wanted
    requires { Small p × (p.m.0 ≤ 6) }
    ensures { result ≡ wanted_of p }
{
    let n = rank(p).0;
    if n == 0 {
        return Wanted {
            at: p,
            first: p,
            second: p,
            third: p,
            maker: p,
            level: Level(0),
            entry: Level(0),
        };
    }
    let first = parent(p, 0);
    let second = parent(p, 1);
    let third = parent(p, 2);
    let maker = creator(p, first, second, third);
    let entry = (n - 1).saturating_sub(1);
    Wanted {
        at: p,
        first,
        second,
        third,
        maker,
        level: Level(n - 1),
        entry: Level(entry),
    }
}

// The record of an internal vertex.
fn star(p: Point, s: Seen) -> Record
    requires { (p.m.0 ≤ 6) × (rank_of p + s.times ≤ 13) }
    ensures { result ≡ star_seen p s }
{
    let b = rank(p).0;
    let n = b + (s.times as u8);
    if b == 0 {
        return filled(p, 6, n % 2, n);
    }
    by_splits(p, s.first, s.second, s.third, birth(p), b - 1, n)
}

// The record at a point of depth 0, which the base has or not.
fn ground_record(marks: &[u8; MARK_BYTES], p: Point, s: Seen) -> Option<Record>
    requires { Small p × ((p.m.0 ≡ 0) × (rank_of p + s.times ≤ 13)) }
    ensures { result ≡ tell_by (in_marks marks.now) p s }
{
    if !is_given(marks, p) {
        return None;
    }
    if !is_inside(marks, p) {
        return Some(filled(p, 0, 0, 0));
    }
    Some(star(p, s))
}

// The record at a point, by what was seen.
fn by_seen(marks: &[u8; MARK_BYTES], p: Point, s: Seen) -> Option<Record>
    requires { Small p × ((p.m.0 ≤ 6) × (rank_of p + s.times ≤ 13)) }
    ensures { result ≡ tell_by (in_marks marks.now) p s }
{
    if p.m.0 == 0 {
        return ground_record(marks, p, s);
    }
    if !s.maker {
        return None;
    }
    Some(star(p, s))
}

// The record at a normalised point after the first n pairs, which were judged good.
pub fn record_at(marks: &[u8; MARK_BYTES], pairs: &[i32], n: usize, p: Point) -> Option<Record>
    requires n_in_bounds { 4 * n ≤ length pairs.now }
    requires centre_set { CentreSet (in_marks marks.now) }
    requires n_value { judged_to (in_marks marks.now) pairs.now n ≡ true }
    requires t { T (is_normal p) }
    ensures { result ≡ record_by (in_marks marks.now) pairs.now n p }
{
    if !valid(filled(p, 0, 0, 0)) {
        return None;
    }
    let w = looked_for(p);
    let s = scan(pairs, n, w);
    by_seen(marks, p, s)
}
