// What a point may be spelled as in a list or a file that others wrote: document 02, tickets 1 and 12.
ghost use Rattle.std.specs.Prelude.{◌≡◌};
ghost use Rattle.text.specs.Limits.{in_limits};

use lattice::{Point, size};

const FARTHEST: u32 = 1000000;

const DEEPEST: u8 = 12;

// A point is within the limits, as it is written.
pub fn in_limits(p: Point) -> bool
    ensures { result ≡ in_limits p }
{
    (size(p.a) <= FARTHEST) & ((size(p.b) <= FARTHEST) & (p.m.0 <= DEEPEST))
}
