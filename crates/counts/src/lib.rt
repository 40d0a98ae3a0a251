// What a census counts of a table: document 01's V, F and the records by degree, and E in document 02's sense, the sides of the faces.
//
// `survey` gives them all. corners.rt counts each face and each side once, at the first vertex that has it (`firsts`, sides.rt), with no memory but a few
// words.
// The promise cites specs/Counts.
#![tactic(auto)]

ghost use Rattle.std.specs.Prelude.{◌≡◌};
ghost use Rattle.table.specs.Slots.{slots_of};
ghost use Rattle.table.specs.Order.{InOrder};
ghost use Rattle.firsts.specs.Earlier.{plain_of};
ghost use Rattle.counts.specs.Counts.{counts_of};

mod corners;
mod degrees;
mod sides;

use crate::corners::count_corners;
pub use degrees::{Degrees, count_degrees};

// The numbers of a census: V, E, F, and the records by degree.
#[derive(Clone, Copy)]
pub struct Counts {
    pub vertices: u32,
    pub edges: u32,
    pub faces: u32,
    pub d0: u32,
    pub d3: u32,
    pub d4: u32,
    pub d5: u32,
    pub d6: u32,
}

// What is counted, and whether every corner of the table is plain.
#[derive(Clone, Copy)]
pub struct Surveyed {
    pub counts: Counts,
    pub plain: bool,
}

// The numbers of a table in order, of n slots, and whether its corners are plain: each has its adjacent point and its opposite in the table, and a face is
// counted at the first of its vertices that have a star. In time linear in the slots, as long as the searches are short.
pub fn survey(t: &[u8], n: usize) -> Surveyed
    requires { InOrder t.now × (n ≡ slots_of t.now) }
    ensures { (result.counts ≡ counts_of t.now) × (result.plain ≡ plain_of t.now) }
{
    let corners = count_corners(t, n);
    let edges = corners.sides;
    let faces = corners.faces;
    let plain = corners.plain;
    let degrees = count_degrees(t, n);
    let d0 = degrees.d0;
    let d3 = degrees.d3;
    let d4 = degrees.d4;
    let d5 = degrees.d5;
    let d6 = degrees.d6;
    let counts = Counts {
        vertices: d0 + d3 + d4 + d5 + d6,
        edges,
        faces,
        d0,
        d3,
        d4,
        d5,
        d6,
    };
    Surveyed { counts, plain }
}
