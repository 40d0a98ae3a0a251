// Steps at a point's own depth.
ghost use Rattle.std.specs.Prelude.{◌≡◌, cond, ◌≤◌, ◌<◌, pos, nat_abs};
ghost use Rattle.std.specs.Int.Signed.{quot_z};
ghost use Rattle.lattice.specs.Bounds.{summable};
ghost use Rattle.lattice.specs.Points.{normal_of};
ghost use Rattle.local.specs.Steps.{step_by};

use lattice::{Depth, Point, both3, normalise};

// A third of x, or x.
fn third_if(whole: bool, x: i32) -> i32
    ensures { result ≡ cond whole (quot_z x (pos 3)) x }
{
    if whole { x / 3 } else { x }
}

// [x, y, m] normalised. Whether a first third comes out cannot be foreseen, so it is chosen with no branch; more thirds are rare.
fn lowest(x: i32, y: i32, m: Depth) -> Point
    requires { 0 < m.0 }
    ensures { result ≡ normal_of x y m.0 }
{
    let d = m.0;
    let whole = both3(x, y);
    normalise(third_if(whole, x), third_if(whole, y), d - u8::from(whole))
}

// Where the step by x and y from [a, b, m] ends.
pub fn stepped(a: i32, b: i32, m: Depth, x: i32, y: i32) -> Point
    requires a_bound { (nat_abs a ≤ summable) × (nat_abs b ≤ summable) }
    requires x_bound { (nat_abs x ≤ 10) × (nat_abs y ≤ 10) }
    requires m_nonzero { 0 < m.0 }
    ensures { result ≡ step_by a b m.0 x y }
{
    lowest(a + x, b + y, m)
}
