// The faces' keys, stored after those of the vertices.
ghost use Rattle.std.specs.Prelude.{◌≡◌, true, false, List, ℕ, ◌+◌, ◌*◌, ◌≤◌, ◌<◌, length, Some};
ghost use Rattle.lattice.specs.RecordLaws.{Inner};
ghost use Rattle.lattice.specs.Stars.{adjacent_at};
ghost use Rattle.table.specs.Slots.{slots_of, slot_at};
ghost use Rattle.table.specs.Order.{InOrder};
ghost use Rattle.firsts.specs.Faces.{next_place};
ghost use Rattle.firsts.specs.Earlier.{placed_of, plain_at, plain_of};
ghost use Rattle.firsts.specs.declared.faces.Face.{Face};
ghost use Rattle.sorting.specs.Sorting.{key_width};
ghost use Rattle.mesh_faces.specs.MeshFaces.{torn_of};
ghost use Rattle.numbering.specs.Ranks.{Stand};
ghost use Rattle.mesh_faces.specs.Once.{fresh_at, fresh_star, fresh_slot, fresh_below, Four};
ghost use Rattle.viewer_lines.specs.Lines.{face_key};
ghost use Rattle.viewer.specs.BodyLaws.{FacesIn};

use firsts::{Face, Placed, next_placed, with_slot};
use lattice::{ANSWER_NUMBERS, Record, point_at, ring};
use mesh_faces::fresh_between;
use numbering::{guess, number_near};
use sorting::put_key;
use table::read_slot;
use viewer_lines::{Corners, least_first, pack};

// The key of a face, by the k sorted keys of the vertices and the guesses for its slots.
fn face_key(
    out: &[u8],
    k: usize,
    f: Face,
    base: usize,
    at: usize,
    adjacent: usize,
    opposite: usize,
    next: usize,
) -> u64
    requires { (t : List ℕ) × (InOrder t × (Stand t out.now k × Four t f)) }
    ensures { (t : List ℕ) → InOrder t → Stand t out.now k → Four t f → result ≡ face_key t f }
{
    let a = number_near(out, k, f.at, guess(out, base, at));
    let b = number_near(out, k, f.adjacent, guess(out, base, adjacent));
    let c = number_near(out, k, f.opposite, guess(out, base, opposite));
    let d = number_near(out, k, f.next, guess(out, base, next));
    pack(least_first(Corners { a, b, c, d }))
}

// Stores the key of corner j's face, between the adjacent points a and b, as key `at`, if it is written here, and gives the place past it.
fn put_corner(
    t: &[u8],
    v: Record,
    j: u8,
    a: Placed,
    b: Placed,
    k: usize,
    n: usize,
    plain: bool,
    out: &mut [u8],
    vertices: usize,
    base: usize,
    at: usize,
) -> usize
    requires in_order { InOrder t.now × ((n ≡ slots_of t.now) × (torn_of t.now ≡ false)) }
    requires stand { Stand t.now out.old vertices }
    requires k_lt_n { (k < n) × (slot_at t.now k ≡ Some v) }
    requires inner { Inner v × (j < v.d) }
    requires vertices_le_at { (vertices ≤ at) × (key_width * (at + length (fresh_at t.now k v j)) ≤ length out.old) }
    requires a_value { (a ≡ placed_of t.now (adjacent_at v j)) × (b ≡ placed_of t.now (adjacent_at v (next_place v.d j))) }
    requires j_value { plain ≡ true → plain_at t.now k v j ≡ true }
    ensures { FacesIn t.now out.old at (fresh_at t.now k v j) out.new result }
{
    match fresh_between(t, v, j, a, b, k, n, plain) {
        None => at,
        Some(fresh) => {
            let x = face_key(
                out,
                vertices,
                fresh.face,
                base,
                k,
                a.slot,
                fresh.opposite,
                b.slot,
            );
            put_key(out, at, x);
            at + 1
        }
    }
}

// Stores the keys of v's faces. Each adjacent point is searched for once.
fn put_star(
    t: &[u8],
    v: Record,
    k: usize,
    n: usize,
    plain: bool,
    out: &mut [u8],
    vertices: usize,
    base: usize,
    from: usize,
) -> usize
    requires in_order { InOrder t.now × ((n ≡ slots_of t.now) × (torn_of t.now ≡ false)) }
    requires stand { Stand t.now out.old vertices }
    requires k_lt_n { (k < n) × (slot_at t.now k ≡ Some v) }
    requires vertices_le_from { (vertices ≤ from) × (key_width * (from + length (fresh_star t.now k v)) ≤ length out.old) }
    requires t_value { plain ≡ true → plain_of t.now ≡ true }
    ensures { FacesIn t.now out.old from (fresh_star t.now k v) out.new result }
{
    if v.d == 0 {
        return from;
    }
    let mut at = from;
    let mut row = [0; ANSWER_NUMBERS];
    ring(&mut row, v);
    let first = with_slot(t, point_at(&row, v, 0), n);
    let mut a = first;
    for j in 0..v.d {
        let b = next_placed(t, &row, v, j, first, n);
        at = put_corner(t, v, j, a, b, k, n, plain, out, vertices, base, at);
        a = b;
    }
    at
}

// The same of what slot k holds.
fn put_slot_faces(
    t: &[u8],
    k: usize,
    n: usize,
    plain: bool,
    out: &mut [u8],
    vertices: usize,
    base: usize,
    at: usize,
) -> usize
    requires in_order { InOrder t.now × ((n ≡ slots_of t.now) × (torn_of t.now ≡ false)) }
    requires stand { Stand t.now out.old vertices }
    requires k_lt_n { k < n }
    requires vertices_le_at { (vertices ≤ at) × (key_width * (at + length (fresh_slot t.now k)) ≤ length out.old) }
    requires t_value { plain ≡ true → plain_of t.now ≡ true }
    ensures { FacesIn t.now out.old at (fresh_slot t.now k) out.new result }
{
    match read_slot(t, k) {
        None => at,
        Some(v) => put_star(t, v, k, n, plain, out, vertices, base, at),
    }
}

// Stores the keys of all faces after those of the vertices, and gives how many keys there are then; plain tells that all corners are.
pub fn put_faces(
    t: &[u8],
    n: usize,
    plain: bool,
    out: &mut [u8],
    vertices: usize,
    base: usize,
) -> usize
    requires in_order { InOrder t.now × ((n ≡ slots_of t.now) × (torn_of t.now ≡ false)) }
    requires stand { Stand t.now out.old vertices }
    requires n_in_bounds { key_width * (vertices + length (fresh_below t.now n)) ≤ length out.old }
    requires t_value { plain ≡ true → plain_of t.now ≡ true }
    ensures { FacesIn t.now out.old vertices (fresh_below t.now n) out.new result }
{
    let mut at = vertices;
    for k in 0..n {
        at = put_slot_faces(t, k, n, plain, out, vertices, base, at);
    }
    at
}
