// The arms of a star, to its adjacent points and to the opposites of its corners: where the angles between them are all the same, each is the one before
// it, turned.
ghost use Rattle.std.specs.Prelude.{◌≡◌, true};
ghost use Rattle.lattice.specs.Arms.{regular_of, arm_by, arm_of, near_arm, far_arm, next_arm};
ghost use Rattle.lattice.specs.Bounds.{Small, Near};
ghost use Rattle.lattice.specs.RecordLaws.{Inner};
ghost use Rattle.lattice.specs.Terms.{Light};

use crate::patterns::{farther, first_opposite, foremost};
use crate::points::{Point, Terms, brought};
use crate::records::Record;
use crate::stars::scaled;

// A degree whose arms stand at equal angles: by 120 degrees or by 60.
pub fn regular(d: u8) -> bool
    ensures { result ≡ regular_of d }
{
    (d == 3) | (d == 6)
}

// The arm from a vertex by the pattern point p.
fn arm(v: Record, p: Point) -> Terms
    requires { Small v.at × Near v.n p }
    ensures { result ≡ arm_by v p }
{
    let at = v.at;
    brought(at.a, at.b, at.m, p.a, p.b, scaled(v.n, p.m))
}

// The first arm of a star, to its first adjacent point.
pub fn first_arm(v: Record) -> Terms
    requires { Inner v }
    ensures { result ≡ arm_of v 0 }
{
    arm(v, foremost(v.k))
}

// The arm to the first opposite of its first corner.
pub fn near_arm(v: Record) -> Terms
    requires { Inner v }
    ensures { result ≡ near_arm v 0 }
{
    arm(v, first_opposite(v.d, v.k, 0))
}

// The arm to the second, which each corner of a regular star has.
pub fn far_arm(v: Record) -> Terms
    requires { Inner v × (regular_of v.d ≡ true) }
    ensures { result ≡ far_arm v 0 }
{
    arm(v, farther(v.d, v.k, 0))
}

// The arm after an arm of a regular star of degree d, to whichever of its points.
pub fn next_arm(w: Terms, d: u8) -> Terms
    requires { Light w }
    ensures { result ≡ next_arm d w }
{
    let sum = w.x + w.y;
    let m = w.m;
    if d == 6 {
        return Terms {
            a: w.a,
            b: w.b,
            x: -w.y,
            y: sum,
            m,
        };
    }
    Terms {
        a: w.a,
        b: w.b,
        x: -sum,
        y: w.x,
        m,
    }
}
