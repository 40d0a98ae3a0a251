// What the base says of a point of depth 0: whether it is there, and whether it is internal.
ghost use Rattle.std.specs.Prelude.{◌≡◌, ◌≢◌, cond, ◌<◌, eqb};
ghost use Rattle.lattice.specs.Bounds.{Small};
ghost use Rattle.lattice.specs.Points.{class_of};
ghost use Rattle.growth.specs.Sheets.{hexagon_round, given_by, inside_base};
ghost use Rattle.centres.specs.Marks.{in_marks};

use centres::{MARK_BYTES, is_marked};
use lattice::{Level, Point, class, moved};

// The direction of the first of the three hexagons round a corner.
fn toward(p: Point) -> u8
    ensures { result ≡ cond (eqb (class_of p) 1) 2 0 }
{
    if class(p) == 1 { 2 } else { 0 }
}

// Hexagon t of the three round a corner is marked.
fn round_marked(marks: &[u8; MARK_BYTES], p: Point, t: u8) -> bool
    requires { Small p × ((p.m.0 ≡ 0) × ((class_of p ≢ 0) × (t < 3))) }
    ensures { result ≡ in_marks marks.now (hexagon_round p t) }
{
    is_marked(marks, moved(p, toward(p) + 4 * t, Level(0)))
}

// The base has a point of depth 0.
pub fn is_given(marks: &[u8; MARK_BYTES], p: Point) -> bool
    requires { Small p × (p.m.0 ≡ 0) }
    ensures { result ≡ given_by (in_marks marks.now) p }
{
    if class(p) == 0 {
        return is_marked(marks, p);
    }
    round_marked(marks, p, 0) | (round_marked(marks, p, 1) | round_marked(marks, p, 2))
}

// It is internal there.
pub fn is_inside(marks: &[u8; MARK_BYTES], p: Point) -> bool
    requires { Small p × (p.m.0 ≡ 0) }
    ensures { result ≡ inside_base (in_marks marks.now) p }
{
    if class(p) == 0 {
        return is_marked(marks, p);
    }
    round_marked(marks, p, 0) & (round_marked(marks, p, 1) & round_marked(marks, p, 2))
}
