// E and F, in one pass over the corners: at each the face, the side to its adjacent point, and the two sides across from the vertex.
ghost use Rattle.std.specs.Prelude.{◌≡◌, true, false, not, ◌||◌, ◌≤◌, ◌<◌, Some};
ghost use Rattle.lattice.specs.Stars.{adjacent_at};
ghost use Rattle.lattice.specs.Records.{valid_of};
ghost use Rattle.lattice.specs.RecordLaws.{Inner};
ghost use Rattle.table.specs.Slots.{Table, slots_of, slot_at};
ghost use Rattle.table.specs.Order.{InOrder};
ghost use Rattle.firsts.specs.Faces.{next_place, faces_in};
ghost use Rattle.firsts.specs.Strides.{opposite_by};
ghost use Rattle.firsts.specs.Earlier.{inners_in, placed_of, Round, corner_count, star_faces, slot_faces, plain_at, plain_star, plain_slot, plain_of};
ghost use Rattle.counts.specs.Counts.{edges_in};
ghost use Rattle.counts.specs.Counted.{faces_and_sides, side_count, star_sides, slot_sides};

use crate::sides::{far_count, has_face, near_count, prev_place};
use firsts::{Face, Placed, choose, face_seen, fits_of, inners_before, next_placed, with_slot};
use lattice::{ANSWER_NUMBERS, Record, point_at, ring};
use table::read_slot;

// Faces and sides, and whether the corners are plain: whole, and a face is counted at the first of its vertices that have a star.
#[derive(Clone, Copy)]
pub struct Counted {
    pub faces: u32,
    pub sides: u32,
    pub plain: bool,
}

// Whether a face is counted at the first of its vertices that have a star: seen tells whether one of the three others, in these slots, had it before.
fn is_first(t: &[u8], a: usize, o: usize, b: usize, seen: bool, k: usize, n: usize) -> bool
    requires { Table t.now n × (k ≤ n) }
    ensures { result ≡ not (inners_in t.now k a o b) || seen }
{
    seen || !inners_before(t, a, o, b, k, n)
}

// What is counted at corner j of v, in slot k, with a face: from its adjacent point a to the opposite o, the first or the second, and the next adjacent
// point b.
fn count_face(
    t: &[u8],
    v: Record,
    j: u8,
    second: bool,
    a: Placed,
    o: Placed,
    b: Placed,
    k: usize,
    n: usize,
) -> Counted
    requires in_order { InOrder t.now × ((n ≡ slots_of t.now) × (k < n)) }
    requires inner { Inner v × (j < v.d) }
    requires k_value { slot_at t.now k ≡ Some v }
    requires round { Round t.now v j a o b }
    requires second_value { opposite_by v j second ≡ Some o.at }
    ensures value { result ≡ faces_and_sides (corner_count t.now k v j) (side_count t.now k v j) (plain_at t.now k v j) }
    ensures faces_bound { (result.faces ≤ 1) × (result.sides ≤ 3) }
{
    let at = v.at;
    let adjacent = a.at;
    let opposite = o.at;
    let next = b.at;
    let face = Face {
        at,
        adjacent,
        opposite,
        next,
    };
    let fits = fits_of(t, v, j, second, a, o, b, k, n);
    let near = near_count(t, v, j, a, true, 0 < fits.adjacent, k, n);
    let seen = face_seen(t, face, a.slot, o.slot, b.slot, fits, k, n);
    let faces = u32::from(!seen);
    let sides = near + far_count(t, v, j, a, o, b, fits, seen, k, n);
    let plain = (a.slot < n) & is_first(t, a.slot, o.slot, b.slot, seen, k, n);
    Counted {
        faces,
        sides,
        plain,
    }
}

// What is counted at corner j of v, in slot k, between its adjacent points a and b: its face, the side from v to a, and the two sides across from v.
fn count_corner(t: &[u8], v: Record, j: u8, a: Placed, b: Placed, k: usize, n: usize) -> Counted
    requires in_order { InOrder t.now × ((n ≡ slots_of t.now) × (k < n)) }
    requires inner { Inner v × (j < v.d) }
    requires k_value { slot_at t.now k ≡ Some v }
    requires a_value { (a ≡ placed_of t.now (adjacent_at v j)) × (b ≡ placed_of t.now (adjacent_at v (next_place v.d j))) }
    ensures value { result ≡ faces_and_sides (corner_count t.now k v j) (side_count t.now k v j) (plain_at t.now k v j) }
    ensures faces_bound { (result.faces ≤ 1) × (result.sides ≤ 3) }
{
    match choose(t, v, j, n) {
        Some(o) => count_face(t, v, j, o.second, a, o.placed, b, k, n),
        None => {
            let has = has_face(t, v, prev_place(v.d, j), n);
            let sides = near_count(t, v, j, a, has, false, k, n);
            Counted {
                faces: 0,
                sides,
                plain: false,
            }
        }
    }
}

// What is counted at v, in slot k. Each adjacent point is searched for once.
fn count_star(t: &[u8], v: Record, k: usize, n: usize) -> Counted
    requires in_order { InOrder t.now × ((n ≡ slots_of t.now) × (k < n)) }
    requires v_value { valid_of v ≡ true }
    requires k_value { slot_at t.now k ≡ Some v }
    ensures value { result ≡ faces_and_sides (star_faces t.now k v) (star_sides t.now k v) (plain_star t.now k v) }
    ensures faces_bound { (result.faces ≤ 6) × (result.sides ≤ 18) }
{
    let d = v.d;
    if d == 0 {
        return Counted {
            faces: 0,
            sides: 0,
            plain: true,
        };
    }
    let mut faces = 0;
    let mut sides = 0;
    let mut plain = true;
    let mut row = [0; ANSWER_NUMBERS];
    ring(&mut row, v);
    let first = with_slot(t, point_at(&row, v, 0), n);
    let mut a = first;
    for j in 0..d {
        let b = next_placed(t, &row, v, j, first, n);
        let c = count_corner(t, v, j, a, b, k, n);
        faces += c.faces;
        sides += c.sides;
        plain &= c.plain;
        a = b;
    }
    Counted {
        faces,
        sides,
        plain,
    }
}

// What is counted in slot k.
fn count_slot(t: &[u8], k: usize, n: usize) -> Counted
    requires { InOrder t.now × ((n ≡ slots_of t.now) × (k < n)) }
    ensures value { result ≡ faces_and_sides (slot_faces t.now k) (slot_sides t.now k) (plain_slot t.now k) }
    ensures faces_bound { (result.faces ≤ 6) × (result.sides ≤ 18) }
{
    match read_slot(t, k) {
        None => Counted {
            faces: 0,
            sides: 0,
            plain: true,
        },
        Some(v) => count_star(t, v, k, n),
    }
}

// The different faces of a table, and their different sides. In time linear in the slots, as long as the searches are short.
pub fn count_corners(t: &[u8], n: usize) -> Counted
    requires { InOrder t.now × (n ≡ slots_of t.now) }
    ensures { result ≡ faces_and_sides (faces_in t.now) (edges_in t.now) (plain_of t.now) }
{
    let mut faces = 0;
    let mut sides = 0;
    let mut plain = true;
    for k in 0..n {
        let s = count_slot(t, k, n);
        faces += s.faces;
        sides += s.sides;
        plain &= s.plain;
    }
    Counted {
        faces,
        sides,
        plain,
    }
}
