// How long the faces' lines are, before any is written.
ghost use Rattle.std.specs.Prelude.{◌≡◌, false, List, ℕ, ◌+◌, ◌*◌, ◌≤◌, ◌<◌, length, Some};
ghost use Rattle.lattice.specs.RecordLaws.{Inner};
ghost use Rattle.table.specs.Slots.{slots_of, slot_at};
ghost use Rattle.table.specs.Order.{InOrder};
ghost use Rattle.firsts.specs.declared.faces.Face.{Face};
ghost use Rattle.writers.specs.Kept.{places};
ghost use Rattle.mesh_faces.specs.MeshFaces.{torn_of};
ghost use Rattle.viewer_lines.specs.ViewerLines.{texts};
ghost use Rattle.numbering.specs.Ranks.{Cuts};
ghost use Rattle.mesh_faces.specs.Once.{fresh_at, fresh_star, fresh_slot, fresh_below, Four};
ghost use Rattle.viewer_lines.specs.Lines.{face_line, face_most, star_most};

use crate::styles::Style;
use firsts::Face;
use lattice::Record;
use mesh_faces::fresh_at;
use numbering::{Widths, number_width};
use table::read_slot;

// The bytes of a face's line that are no digits of its numbers.
pub const FACE_WIDTH: usize = 6;

// How long the line of a face is.
fn face_length(s: Style, w: Widths, f: Face) -> usize
    requires { ((t : List ℕ) × (InOrder t × (Cuts t s.first w × Four t f))) × (s.first ≤ 1) }
    ensures { ((t : List ℕ) → InOrder t → Cuts t s.first w → Four t f → result ≡ length (face_line s t f)) × (result ≤ face_most) }
{
    let first = s.first;
    let a = number_width(w, first, f.at);
    let b = number_width(w, first, f.adjacent);
    let c = number_width(w, first, f.opposite);
    let d = number_width(w, first, f.next);
    FACE_WIDTH + a + b + c + d
}

// How long the line of corner j's face is, if that is written here.
fn corner_length(t: &[u8], v: Record, j: u8, k: usize, n: usize, s: Style, w: Widths) -> usize
    requires in_order { InOrder t.now × ((n ≡ slots_of t.now) × (torn_of t.now ≡ false)) }
    requires cuts { Cuts t.now s.first w × (s.first ≤ 1) }
    requires k_lt_n { (k < n) × (slot_at t.now k ≡ Some v) }
    requires inner { Inner v × (j < v.d) }
    ensures { (result ≡ length (texts (face_line s t.now) (fresh_at t.now k v j))) × (result ≤ face_most) }
{
    match fresh_at(t, v, j, k, n) {
        None => 0,
        Some(fresh) => face_length(s, w, fresh.face),
    }
}

// How long the lines of v's faces are, of those that are written here.
fn star_length(t: &[u8], v: Record, k: usize, n: usize, s: Style, w: Widths) -> usize
    requires in_order { InOrder t.now × ((n ≡ slots_of t.now) × (torn_of t.now ≡ false)) }
    requires cuts { Cuts t.now s.first w × (s.first ≤ 1) }
    requires k_lt_n { (k < n) × (slot_at t.now k ≡ Some v) }
    ensures { (result ≡ length (texts (face_line s t.now) (fresh_star t.now k v))) × (result ≤ star_most) }
{
    let mut total = 0;
    for j in 0..v.d {
        total += corner_length(t, v, j, k, n, s, w);
    }
    total
}

// The same of what slot k holds.
fn slot_length(t: &[u8], k: usize, n: usize, s: Style, w: Widths) -> usize
    requires in_order { InOrder t.now × ((n ≡ slots_of t.now) × (torn_of t.now ≡ false)) }
    requires cuts { Cuts t.now s.first w × (s.first ≤ 1) }
    requires k_lt_n { k < n }
    ensures { (result ≡ length (texts (face_line s t.now) (fresh_slot t.now k))) × (result ≤ star_most) }
{
    match read_slot(t, k) {
        None => 0,
        Some(v) => star_length(t, v, k, n, s, w),
    }
}

// How long the lines of all faces are.
pub fn faces_length(t: &[u8], n: usize, s: Style, w: Widths) -> usize
    requires in_order { InOrder t.now × ((n ≡ slots_of t.now) × (torn_of t.now ≡ false)) }
    requires cuts { Cuts t.now s.first w × (s.first ≤ 1) }
    ensures { (result ≡ length (texts (face_line s t.now) (fresh_below t.now n))) × (result ≤ star_most * places) }
{
    let mut total = 0;
    for k in 0..n {
        total += slot_length(t, k, n, s, w);
    }
    total
}
