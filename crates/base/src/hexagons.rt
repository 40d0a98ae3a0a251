// The seven records of a hexagon, and all of them entered: document 01, "Base".
ghost use Rattle.std.specs.Prelude.{◌≡◌, ◌<◌};
ghost use Rattle.lattice.specs.Points.{sum_of};
ghost use Rattle.table.specs.Slots.{Table};
ghost use Rattle.centres.specs.Marks.{in_marks};
ghost use Rattle.base.specs.Base.{centres_in, is_listed, hexagon_listed, internal, at0, corner_record, Room, lay, lay_hexagon, lay_all};
ghost use Rattle.base.specs.Laying.{Within, laid_by, lay_corners};

use centres::{MARK_BYTES, centre_at, is_marked};
use lattice::{Depth, Level, Point, Record, class, turn60};
use table::{Found, enter, find, write_slot};

// A hexagon has six corners.
const CORNERS: u8 = 6;

// The step from a centre to its first corner; turned by 60 degrees it goes to the next.
const AHEAD: Point = Point {
    a: 1,
    b: 0,
    m: Depth(0),
};

// The point one step from p.
fn beside(p: Point, step: Point) -> Point
    requires { Within 251 p × Within 1 step }
    ensures { result ≡ sum_of p step }
{
    let a = p.a + step.a;
    let b = p.b + step.b;
    Point { a, b, m: Depth(0) }
}

// A point is the centre of no hexagon, or of one that is marked.
fn hexagon_marked(marks: &[u8; MARK_BYTES], p: Point) -> bool
    requires { p.m.0 ≡ 0 }
    ensures { result ≡ hexagon_listed (in_marks marks.now) p }
{
    class(p) != 0 || is_marked(marks, p)
}

// All three hexagons round a corner are marked.
fn is_internal(marks: &[u8; MARK_BYTES], q: Point) -> bool
    requires { Within 251 q }
    ensures { result ≡ internal (in_marks marks.now) q }
{
    let mut step = AHEAD;
    for j in 0..CORNERS {
        if !hexagon_marked(marks, beside(q, step)) {
            return false;
        }
        step = turn60(step);
    }
    true
}

// A record of depth and level 0.
fn vertex(p: Point, d: u8, k: u8) -> Record
    ensures { result ≡ at0 p d k }
{
    Record {
        at: p,
        d,
        k,
        n: Level(0),
    }
}

// The record of a corner.
fn corner_record(marks: &[u8; MARK_BYTES], q: Point) -> Record
    requires { Within 251 q }
    ensures { result ≡ corner_record (in_marks marks.now) q }
{
    if !is_internal(marks, q) {
        vertex(q, 0, 0)
    } else if class(q) == 1 {
        vertex(q, 6, 0)
    } else {
        vertex(q, 3, 2)
    }
}

// Enters a record, unless its point is there already: false where no slot is left.
fn lay_record(table: &mut [u8], n: usize, r: Record) -> bool
    requires { Table table.old n }
    ensures { laid_by result table.new ≡ lay (Room table.old) r }
{
    match enter(table, r, n) {
        Found::At(_) => true,
        Found::Free(_) => true,
        Found::Full => false,
    }
}

// Enters a corner, unless it is there already: false where no slot is left. Its record is worked out only where it is entered.
fn lay_corner(table: &mut [u8], n: usize, marks: &[u8; MARK_BYTES], q: Point) -> bool
    requires { Table table.old n × Within 251 q }
    ensures { laid_by result table.new ≡ lay (Room table.old) (corner_record (in_marks marks.now) q) }
{
    match find(table, q, n) {
        Found::At(_) => true,
        Found::Free(i) => {
            write_slot(table, i, corner_record(marks, q));
            true
        }
        Found::Full => false,
    }
}

// Enters the corners of the hexagon at p.
fn lay_corners(table: &mut [u8], n: usize, marks: &[u8; MARK_BYTES], p: Point) -> bool
    requires { Table table.old n × Within 250 p }
    ensures { laid_by result table.new ≡ lay_corners (in_marks marks.now) p 6 (Room table.old) }
{
    let mut step = AHEAD;
    for j in 0..CORNERS {
        if !lay_corner(table, n, marks, beside(p, step)) {
            return false;
        }
        step = turn60(step);
    }
    true
}

// Enters the records of the hexagon at p: its centre, then its corners.
fn lay_hexagon(table: &mut [u8], n: usize, marks: &[u8; MARK_BYTES], p: Point) -> bool
    requires { Table table.old n × Within 250 p }
    ensures { laid_by result table.new ≡ lay_hexagon (in_marks marks.now) p 7 (Room table.old) }
{
    lay_record(table, n, vertex(p, 3, 0)) && lay_corners(table, n, marks, p)
}

// Enters the records of all hexagons, in the order of the list.
pub fn lay_all(table: &mut [u8], n: usize, centres: &[i32], marks: &[u8; MARK_BYTES]) -> bool
    requires table { Table table.old n }
    requires marks_value { in_marks marks.now ≡ is_listed centres.now }
    ensures { laid_by result table.new ≡ lay_all centres.now (centres_in centres.now) (Room table.old) }
{
    for i in 0..centres.len() / 2 {
        if !lay_hexagon(table, n, marks, centre_at(centres, i)) {
            return false;
        }
    }
    true
}
