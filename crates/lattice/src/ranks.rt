// Ranks of points and their parents, by their numbers: what the check of a grown mesh asks. Ours; document 01 has none of it.
ghost use Rattle.std.specs.Prelude.{◌≡◌, ◌+◌, ◌%◌, ◌≤◌, ◌<◌};
ghost use Rattle.laws.specs.Residue.{mod_z};
ghost use Rattle.lattice.specs.Bounds.{Small};
ghost use Rattle.lattice.specs.Points.{class_of};
ghost use Rattle.lattice.specs.Ranks.{rank_of, birth_of, move_of, parent_of};

use crate::patterns::foremost;
use crate::points::Point;
use crate::records::Level;
use crate::stars::step;

// What a number leaves on division by 3, never negative. By no `rem_euclid`: of that the compiler makes branches, and a base takes half as long again.
fn left3(x: i32) -> u8
    ensures { (result ≡ mod_z x 3) × (result < 3) }
{
    let r = x % 3;
    if r < 0 { (r + 3) as u8 } else { r as u8 }
}

// What a - b leaves on division by 3.
pub fn class(p: Point) -> u8
    ensures { result ≡ class_of p }
{
    (left3(p.a) + 3 - left3(p.b)) % 3
}

// The least level at which the point can be subdivided.
#[tactic(auto, unfolding(crate::specs::Ranks::rank_of))]
pub fn rank(p: Point) -> Level
    requires { p.m.0 ≤ 7 }
    ensures { result.0 ≡ rank_of p }
{
    let m = p.m.0;
    let c = class(p);
    if m == 0 {
        if c == 1 {
            return Level(0);
        }
        return Level(1);
    }
    if c == 0 {
        return Level(2 * m);
    }
    Level(2 * m + 1)
}

// Orientations at birth, above depth 0, four bits each from the lowest on: the place is three times what a leaves on division by 3, plus what b leaves.
const BIRTHS: u64 = 0x120032201;

// The orientation of the point when it enters a mesh. Above depth 0 no branch: what the numerators leave cannot be foreseen.
pub fn birth(p: Point) -> u8
    ensures { result ≡ birth_of p }
{
    if p.m.0 == 0 {
        if class(p) == 2 {
            return 2;
        }
        return 0;
    }
    ((BIRTHS >> (4 * (3 * left3(p.a) + left3(p.b)))) % 16) as u8
}

// From p, the step of level i in direction e.
pub fn moved(p: Point, e: u8, i: Level) -> Point
    requires { Small p × ((e < 12) × ((i.0 ≤ 12) × (e % 2 ≡ i.0 % 2))) }
    ensures { result ≡ move_of p e i.0 }
{
    let m = p.m;
    let u = foremost(e);
    let q = u.m;
    step(p.a, p.b, m, i, u.a, u.b, q)
}

// Parent t of a point that has parents.
pub fn parent(p: Point, t: u8) -> Point
    requires { Small p × ((p.m.0 ≤ 6) × ((0 < rank_of p) × (t < 3))) }
    ensures { result ≡ parent_of p t }
{
    moved(p, birth(p) + 4 * t, Level(rank(p).0 - 1))
}
