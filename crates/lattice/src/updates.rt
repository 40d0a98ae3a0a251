// Subdivision, record by record: what becomes of the vertex, what enters round it, and what becomes of its old neighbours.
ghost use Rattle.std.specs.Prelude.{◌≡◌, ◌+◌, ◌<◌};
ghost use Rattle.lattice.specs.RecordLaws.{Inner};
ghost use Rattle.lattice.specs.Subdivision.{centre_of, born_of, back_of, four_turn, update_of, has_rule, accepts_of};

use crate::records::{Level, Record};
use crate::stars::adjacent_of;

// v after its subdivision: a level up, the other orientation.
pub fn centre(v: Record) -> Record
    requires { (v.k < 12) × (v.n.0 < 255) }
    ensures { result ≡ centre_of v }
{
    let at = v.at;
    let n = Level(v.n.0 + 1);
    Record {
        at,
        d: v.d,
        k: (v.k + 1) % 2,
        n,
    }
}

// The vertex of degree 3 that place j of the star of c starts with.
pub fn born(c: Record, j: u8) -> Record
    requires { Inner c × ((j < c.d) × (c.k < 12)) }
    ensures { result ≡ born_of c j }
{
    let at = adjacent_of(c, j);
    let n = c.n;
    Record {
        at,
        d: 3,
        k: (6 + 2 * j + c.k) % 4,
        n,
    }
}

// The direction from the adjacent vertex at place j back to the centre: document 01's k'.
pub fn back(k: u8, j: u8) -> u8
    requires { (k < 12) × (j < 6) }
    ensures { result ≡ back_of k j }
{
    (6 + 2 * j + k) % 12
}

// The orientation that a vertex of degree 4 takes on to degree 5.
fn four_turn(back: u8, k: u8) -> u8
    requires { back < 12 }
    ensures { result ≡ four_turn back k }
{
    if k == back {
        (back + 4) % 12
    } else {
        (back + 8) % 12
    }
}

// An old adjacent vertex after the subdivision, back being its direction to the centre.
#[tactic(auto, unfolding(crate::specs::Subdivision::update_of))]
pub fn updated(back: u8, u: Record) -> Record
    requires { (back < 12) × (u.n.0 < 255) }
    ensures { result ≡ update_of back u }
{
    let at = u.at;
    let n = u.n;
    let up = Level(u.n.0 + 1);
    let d = u.d;
    if d == 3 {
        return Record {
            at,
            d: 4,
            k: (back + 4) % 12,
            n,
        };
    }
    if d == 4 {
        return Record {
            at,
            d: 5,
            k: four_turn(back, u.k),
            n,
        };
    }
    if d == 5 {
        return Record {
            at,
            d: 6,
            k: (back + 1) % 2,
            n: up,
        };
    }
    u
}

// A rule takes a vertex of degree d and orientation k on.
fn has_rule(back: u8, d: u8, k: u8) -> bool
    requires { k < 252 }
    ensures { result ≡ has_rule back d k }
{
    match d {
        3 => back % 4 == k,
        4 => (k == back) | ((k + 4) % 12 == back),
        5 => back == k,
        _ => false,
    }
}

// An old adjacent vertex that tears nothing: a boundary vertex, or one of level n with a rule.
#[tactic(auto, unfolding(crate::specs::Subdivision::accepts_of))]
pub fn accepts(back: u8, n: Level, u: Record) -> bool
    requires { u.k < 252 }
    ensures { result ≡ accepts_of back n.0 u }
{
    u.d == 0 || (u.n == n && has_rule(back, u.d, u.k))
}
