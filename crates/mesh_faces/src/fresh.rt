// The face of a corner, if no earlier vertex has it: so each face is taken once, at the first vertex that has it, in the order of slots.
ghost use Rattle.std.specs.Prelude.{◌≡◌, true, false, ◌<◌, Some};
ghost use Rattle.lattice.specs.RecordLaws.{Inner};
ghost use Rattle.table.specs.Slots.{slots_of, slot_at};
ghost use Rattle.table.specs.Order.{InOrder};
ghost use Rattle.lattice.specs.Stars.{adjacent_at};
ghost use Rattle.firsts.specs.Faces.{next_place};
ghost use Rattle.firsts.specs.Earlier.{Round, placed_of, inner_in, plain_at};
ghost use Rattle.firsts.specs.Strides.{opposite_by};
ghost use Rattle.mesh_faces.specs.Once.{fresh_of, fresh_at};

use firsts::{Face, Placed, choose, face_seen, fits_of, inner_before, next_place, with_slot};
use lattice::{Record, adjacent_of};

// A face that no earlier vertex has, and the slot of its opposite, which only guides the search for a number.
#[derive(Clone, Copy)]
pub struct Fresh {
    pub face: Face,
    pub opposite: usize,
}

// The face of corner j of v, in slot k, by its first or second opposite, if no earlier vertex has it.
fn fresh_face(
    t: &[u8],
    v: Record,
    j: u8,
    second: bool,
    a: Placed,
    o: Placed,
    b: Placed,
    k: usize,
    n: usize,
) -> Option<Fresh>
    requires in_order { InOrder t.now × ((n ≡ slots_of t.now) × (k < n)) }
    requires inner { Inner v × (j < v.d) }
    requires k_value { slot_at t.now k ≡ Some v }
    requires round { Round t.now v j a o b }
    requires second_value { opposite_by v j second ≡ Some o.at }
    ensures { fresh_of result ≡ fresh_at t.now k v j }
{
    let at = v.at;
    let adjacent = a.at;
    let opposite = o.at;
    let next = b.at;
    let face = Face {
        at,
        adjacent,
        opposite,
        next,
    };
    let fits = fits_of(t, v, j, second, a, o, b, k, n);
    if face_seen(t, face, a.slot, o.slot, b.slot, fits, k, n) {
        None
    } else {
        Some(Fresh {
            face,
            opposite: o.slot,
        })
    }
}

// The same where the corner is plain: if no earlier vertex of the face has a star.
fn lone_face(
    t: &[u8],
    v: Record,
    j: u8,
    a: Placed,
    o: Placed,
    b: Placed,
    k: usize,
    n: usize,
) -> Option<Fresh>
    requires in_order { InOrder t.now × ((n ≡ slots_of t.now) × (k < n)) }
    requires round { Round t.now v j a o b × (plain_at t.now k v j ≡ true) }
    requires slot_value { (inner_in t.now k a.slot ≡ false) × (inner_in t.now k b.slot ≡ false) }
    ensures { fresh_of result ≡ fresh_at t.now k v j }
{
    let at = v.at;
    let adjacent = a.at;
    let opposite = o.at;
    let next = b.at;
    let face = Face {
        at,
        adjacent,
        opposite,
        next,
    };
    if inner_before(t, o.slot, k, n) {
        None
    } else {
        Some(Fresh {
            face,
            opposite: o.slot,
        })
    }
}

// The face of a plain corner, between its adjacent points a and b, if no earlier vertex has it: its opposite is looked for only where neither of them tells.
fn fresh_plain(
    t: &[u8],
    v: Record,
    j: u8,
    a: Placed,
    b: Placed,
    k: usize,
    n: usize,
) -> Option<Fresh>
    requires in_order { InOrder t.now × ((n ≡ slots_of t.now) × (k < n)) }
    requires inner { Inner v × (j < v.d) }
    requires a_value { (a ≡ placed_of t.now (adjacent_at v j)) × (b ≡ placed_of t.now (adjacent_at v (next_place v.d j))) }
    requires j_value { plain_at t.now k v j ≡ true }
    ensures { fresh_of result ≡ fresh_at t.now k v j }
{
    if inner_before(t, a.slot, k, n) {
        return None;
    }
    if inner_before(t, b.slot, k, n) {
        return None;
    }
    match choose(t, v, j, n) {
        Some(o) => lone_face(t, v, j, a, o.placed, b, k, n),
        None => None,
    }
}

// The face of corner j of v, in slot k, between its adjacent points a and b, if no earlier vertex has it; plain tells that the corner is.
pub fn fresh_between(
    t: &[u8],
    v: Record,
    j: u8,
    a: Placed,
    b: Placed,
    k: usize,
    n: usize,
    plain: bool,
) -> Option<Fresh>
    requires in_order { InOrder t.now × ((n ≡ slots_of t.now) × (k < n)) }
    requires inner { Inner v × (j < v.d) }
    requires k_value { slot_at t.now k ≡ Some v }
    requires a_value { (a ≡ placed_of t.now (adjacent_at v j)) × (b ≡ placed_of t.now (adjacent_at v (next_place v.d j))) }
    requires j_value { plain ≡ true → plain_at t.now k v j ≡ true }
    ensures { fresh_of result ≡ fresh_at t.now k v j }
{
    if plain {
        return fresh_plain(t, v, j, a, b, k, n);
    }
    match choose(t, v, j, n) {
        Some(o) => fresh_face(t, v, j, o.second, a, o.placed, b, k, n),
        None => None,
    }
}

// The face of corner j of v, in slot k, if no earlier vertex has it.
pub fn fresh_at(t: &[u8], v: Record, j: u8, k: usize, n: usize) -> Option<Fresh>
    requires in_order { InOrder t.now × ((n ≡ slots_of t.now) × (k < n)) }
    requires inner { Inner v × (j < v.d) }
    requires k_value { slot_at t.now k ≡ Some v }
    ensures { fresh_of result ≡ fresh_at t.now k v j }
{
    let a = with_slot(t, adjacent_of(v, j), n);
    let b = with_slot(t, adjacent_of(v, next_place(v.d, j)), n);
    fresh_between(t, v, j, a, b, k, n, false)
}
