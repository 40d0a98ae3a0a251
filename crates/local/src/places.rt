// The test of a record by the kind of its point: a centre, a corner, or a point that a subdivision entered.
ghost use Rattle.std.specs.Prelude.{◌≡◌, true, ◌<◌};
ghost use Rattle.lattice.specs.Points.{class_of};
ghost use Rattle.lattice.specs.Records.{valid_of};
ghost use Rattle.growth.specs.Local.{centre_test, corner_test, deep_test, star_test};
ghost use Rattle.table.specs.Slots.{Table};
ghost use Rattle.local.specs.Sheet.{sheet_of};
ghost use Rattle.local.specs.Places.{starred, place_test, turn_of};

use crate::lookups::ring_count;
use crate::parents::{all_there, creator_over, deep_parents, parents_of};
use crate::told::{as_told, same_star};
use lattice::{Record, class, rank};

// Degree, orientation and level are what the model says.
fn star_passes(t: &[u8], r: Record, n: usize) -> bool
    requires { Table t.now n × (valid_of r ≡ true) }
    ensures { result ≡ star_test (sheet_of t.now) r }
{
    let p = r.at;
    let level = r.n.0;
    if rank(p).0 == 0 {
        return same_star(r, 6, level % 2, level);
    }
    as_told(r, parents_of(t, p, n))
}

// A centre: its corners in directions 0, 4 and 8 are its parents, and serve both tests; the other three begin at direction 2.
fn centre_passes(t: &[u8], r: Record, n: usize) -> bool
    requires table { Table t.now n × (valid_of r ≡ true) }
    requires m_value { (r.at.m.0 ≡ 0) × (class_of r.at ≡ 0) }
    ensures { result ≡ starred (centre_test (sheet_of t.now) r) (sheet_of t.now) r }
{
    let p = r.at;
    if r.d == 0 {
        return false;
    }
    let s = parents_of(t, p, n);
    if !all_there(s) {
        return false;
    }
    if ring_count(t, p, 2, n) != 3 {
        return false;
    }
    as_told(r, s)
}

// The first direction to a hexagon round a corner of class c.
fn turn(c: u8) -> u8
    ensures { result ≡ turn_of c }
{
    if c == 1 { 2 } else { 0 }
}

// A corner: degree 0 just where not all hexagons round it are there.
fn corner_passes(t: &[u8], r: Record, n: usize) -> bool
    requires table { Table t.now n × (valid_of r ≡ true) }
    requires m_value { r.at.m.0 ≡ 0 }
    ensures { result ≡ starred (corner_test (sheet_of t.now) r) (sheet_of t.now) r }
{
    let p = r.at;
    let d = r.d;
    let h = ring_count(t, p, turn(class(p)), n);
    if h == 0 {
        return false;
    }
    if d == 0 {
        return h < 3;
    }
    if h < 3 {
        return false;
    }
    star_passes(t, r, n)
}

// A point of depth above 0: its creator is one of its parents, which serve all three tests.
fn deep_passes(t: &[u8], r: Record, n: usize) -> bool
    requires table { Table t.now n × (valid_of r ≡ true) }
    requires m_nonzero { 0 < r.at.m.0 }
    ensures { result ≡ starred (deep_test (sheet_of t.now) r) (sheet_of t.now) r }
{
    let p = r.at;
    if r.d == 0 {
        return false;
    }
    let s = deep_parents(t, p, n);
    if !all_there(s) {
        return false;
    }
    if !creator_over(p, s) {
        return false;
    }
    as_told(r, s)
}

// All of the test but what degree 6 asks.
pub fn place_passes(t: &[u8], r: Record, n: usize) -> bool
    requires { Table t.now n × (valid_of r ≡ true) }
    ensures { result ≡ place_test (sheet_of t.now) r }
{
    let p = r.at;
    if 0 < p.m.0 {
        return deep_passes(t, r, n);
    }
    if class(p) == 0 {
        return centre_passes(t, r, n);
    }
    corner_passes(t, r, n)
}
