// V, E and F of a grown table, told by its records: three faces, three spokes and six sides a hexagon, but for the sides that two share; six vertices, six
// faces and twelve sides more a subdivision.
//
// `tally` gives what `counts` would, with no look at a star. It is for the proved floors above, and asks that the table is grown. `surveyed` is for any
// table in order: it tallies where the local check passes, and surveys elsewhere. `count`, in rows.rt, is for any bytes.
// The promises cite specs/Count and together's specs/Tally.
#![tactic(auto)]

ghost use Rattle.std.specs.Prelude.{◌≡◌, ◌≤◌, ◌<◌, nat_abs, ◌+ℤ◌};
ghost use Rattle.lattice.specs.Bounds.{Small};
ghost use Rattle.lattice.specs.Points.{pt};
ghost use Rattle.table.specs.Slots.{slots_of};
ghost use Rattle.table.specs.Order.{InOrder};
ghost use Rattle.table.specs.Entries.{holds};
ghost use Rattle.mesh.specs.Grown.{Grown};
ghost use Rattle.firsts.specs.Faces.{bit};
ghost use Rattle.firsts.specs.Earlier.{plain_of};
ghost use Rattle.counts.specs.Counts.{counts_of};
ghost use Rattle.together.specs.Tally.{is_centre, besides_at, hexagons_in, ground_in, pairs_in};
ghost use Rattle.tally.specs.Count as slot;

mod rows;

use counts::{Counts, Surveyed, count_degrees, survey};
use lattice::{Depth, Point, class};
use local::all_pass;
pub use rows::{COUNTS, count, row};
use table::{is_there, read_slot};

// What the slots of a table add up to: hexagons by their centres, vertices of depth 0, pairs of hexagons side by side.
#[derive(Clone, Copy)]
struct Sums {
    hexagons: u32,
    ground: u32,
    pairs: u32,
}

fn is_centre(p: Point) -> bool
    ensures { result ≡ is_centre p }
{
    p.m.0 == 0 && class(p) == 0
}

// 1 where a record stands at [a + x, b + y, 0], p being [a, b, 0], else 0.
fn beside(t: &[u8], p: Point, x: i32, y: i32, n: usize) -> u32
    requires in_order { InOrder t.now × ((n ≡ slots_of t.now) × Small p) }
    requires x_bound { (nat_abs x ≤ 2) × (nat_abs y ≤ 2) }
    ensures { (result ≡ bit (holds t.now (pt (p.a +ℤ x) (p.b +ℤ y) 0))) × (result ≤ 1) }
{
    let q = Point {
        a: p.a + x,
        b: p.b + y,
        m: Depth(0),
    };
    u32::from(is_there(t, q, n))
}

// How many of three hexagons side by side with that of p the table has: of the two of a pair, one has the other there.
fn besides(t: &[u8], p: Point, n: usize) -> u32
    requires { InOrder t.now × ((n ≡ slots_of t.now) × Small p) }
    ensures { (result ≡ besides_at t.now p) × (result ≤ 3) }
{
    beside(t, p, 1, 1, n) + beside(t, p, -2, 1, n) + beside(t, p, 1, -2, n)
}

// What slot k adds to each.
fn sums_in(t: &[u8], k: usize, n: usize) -> Sums
    requires { InOrder t.now × ((n ≡ slots_of t.now) × (k < n)) }
    ensures hexagons { (result.hexagons ≡ slot.hexagon_at t.now k) × (result.hexagons ≤ 1) }
    ensures ground { (result.ground ≡ slot.ground_at t.now k) × (result.ground ≤ 1) }
    ensures pairs { (result.pairs ≡ slot.pairs_at t.now k) × (result.pairs ≤ 3) }
{
    match read_slot(t, k) {
        None => Sums {
            hexagons: 0,
            ground: 0,
            pairs: 0,
        },
        Some(v) => {
            let centre = is_centre(v.at);
            let pairs = if centre { besides(t, v.at, n) } else { 0 };
            Sums {
                hexagons: u32::from(centre),
                ground: u32::from(v.at.m.0 == 0),
                pairs,
            }
        }
    }
}

// All three, in one pass.
fn summed(t: &[u8], n: usize) -> Sums
    requires { InOrder t.now × (n ≡ slots_of t.now) }
    ensures hexagons_value { (result.hexagons ≡ hexagons_in t.now) × (result.hexagons ≤ n) }
    ensures ground_value { result.ground ≡ ground_in t.now }
    ensures pairs_value { result.pairs ≡ pairs_in t.now }
{
    let mut hexagons = 0;
    let mut ground = 0;
    let mut pairs = 0;
    for k in 0..n {
        let s = sums_in(t, k, n);
        hexagons += s.hexagons;
        ground += s.ground;
        pairs += s.pairs;
    }
    Sums {
        hexagons,
        ground,
        pairs,
    }
}

// What a census counts of a grown table of n slots.
pub fn tally(t: &[u8], n: usize) -> Counts
    requires { Grown t.now × (n ≡ slots_of t.now) }
    ensures { result ≡ counts_of t.now }
{
    let s = summed(t, n);
    let degrees = count_degrees(t, n);
    let d0 = degrees.d0;
    let d3 = degrees.d3;
    let d4 = degrees.d4;
    let d5 = degrees.d5;
    let d6 = degrees.d6;
    let vertices = d0 + d3 + d4 + d5 + d6;
    let added = vertices - s.ground;
    Counts {
        vertices,
        edges: 9 * s.hexagons + 2 * added - s.pairs,
        faces: 3 * s.hexagons + added,
        d0,
        d3,
        d4,
        d5,
        d6,
    }
}

// What `survey` tells of a table in order, of n slots: a grown one is told by its records, and surveyed is only another.
pub fn surveyed(t: &[u8], n: usize) -> Surveyed
    requires { InOrder t.now × (n ≡ slots_of t.now) }
    ensures { (result.counts ≡ counts_of t.now) × (result.plain ≡ plain_of t.now) }
{
    if all_pass(t, n) {
        let counts = tally(t, n);
        return Surveyed {
            counts,
            plain: true,
        };
    }
    survey(t, n)
}
