// Files for the viewer: document 02, ticket 5, OFF and OBJ, written into lent bytes.
//
// Two public calls answer every table and output: `write_off` and `write_obj`, both over a style. Each face once, and where 7 comes from, are `mesh_faces`',
// the vertices' numbers `numbering`'s, the lines `viewer_lines`'; keys.rt has the faces' keys.
// The promises cite specs/Viewer.
#![tactic(auto)]

ghost use Rattle.std.specs.Prelude.{◌≡◌, true, false, List, ◌++◌, ℕ, ◌+◌, ◌≤◌, ltb, length, drop};
ghost use Rattle.lattice.specs.Refusals.{number_told};
ghost use Rattle.table.specs.Slots.{slots_of};
ghost use Rattle.table.specs.Order.{InOrder};
ghost use Rattle.firsts.specs.Faces.{faces_in};
ghost use Rattle.firsts.specs.Earlier.{plain_of};
ghost use Rattle.counts.specs.Counts.{counts_of};
ghost use Rattle.sorting.specs.Sorting.{sort_by};
ghost use Rattle.writers.specs.Files.{output_after, put_of, bytes_told};
ghost use Rattle.mesh_faces.specs.MeshFaces.{torn_of};
ghost use Rattle.viewer_lines.specs.ViewerLines.{texts};
ghost use Rattle.viewer.specs.Viewer.{viewer_file, view_of, write_off_of, write_obj_of};
ghost use Rattle.viewer_lines.specs.Lines.{start_most, key_line, Queue};
ghost use Rattle.viewer.specs.CallLaws.{vertex_part, face_part};

mod keys;

use crate::keys::put_faces;
use counts::Counts;
use lattice::Refusal;
use mesh_faces::any_torn;
use numbering::{KEY_WIDTH, base_of, put_guesses, widths_of};
use sorting::sort;
use table::{in_order, slots_of};
use tally::surveyed;
use viewer_lines::{
    Style, faces_length, head_length, keys_length, put_vertices, vertices_length, write_faces,
    write_head, write_vertices,
};

const OFF: Style = Style {
    head: true,
    marked: false,
    face: b'4',
    first: 0,
};

const OBJ: Style = Style {
    head: false,
    marked: true,
    face: b'f',
    first: 1,
};

// The bytes of the longest line of a face.
const FACE_MOST: usize = 26;

// Sorts k keys of faces and writes their lines from a position on, and gives the position past them.
fn write_sorted(out: &mut [u8], k: usize, start: usize, s: Style) -> usize
    requires { (s.first ≤ 1) × ((ks : List ℕ) × Queue s ks out.old k (start + length (texts (key_line s) ks))) }
    ensures by_index { (ks : List ℕ) → Queue s ks out.old k (start + length (texts (key_line s) ks))
        → (result ≡ start + length (texts (key_line s) ks))
        × (drop start out.new ≡ texts (key_line s) (sort_by ltb ks) ++ drop (start + length (texts (key_line s) ks)) out.old) }
    ensures out_len_unchanged { length out.new ≡ length out.old }
{
    sort(out, k);
    let end = start + keys_length(out, k, s);
    write_faces(out, k, end, s);
    end
}

// Writes vertices and faces: the faces' lines from `start` on, the vertices' right before them, and gives the position past them; plain tells that all
// corners are.
fn write_body(
    t: &[u8],
    n: usize,
    s: Style,
    plain: bool,
    out: &mut [u8],
    start: usize,
    many: u32,
) -> usize
    requires in_order { InOrder t.now × (n ≡ slots_of t.now) }
    requires t_value { (torn_of t.now ≡ false) × (s.first ≤ 1) }
    requires t_len_bound { (length (vertex_part s t.now) ≤ start) × (start + length (face_part s t.now) ≤ length out.old) }
    requires t_value_2 { (plain ≡ true → plain_of t.now ≡ true) × (many ≡ faces_in t.now) }
    ensures value { result ≡ start + length (face_part s t.now) }
    ensures by_index { (from : ℕ) → from + length (vertex_part s t.now) ≡ start
        → drop from out.new
        ≡ vertex_part s t.now ++ (face_part s t.now ++ drop (start + length (face_part s t.now)) out.old) }
    ensures out_len_unchanged { length out.new ≡ length out.old }
{
    let vertices = put_vertices(t, n, out);
    sort(out, vertices);
    let base = base_of(vertices, many, n, start);
    put_guesses(out, vertices, base, n);
    let faces = put_faces(t, n, plain, out, vertices, base) - vertices;
    let from = KEY_WIDTH * vertices;
    let end = write_sorted(&mut out[from..], faces, start - from, s);
    write_vertices(t, out, vertices, start, s);
    from + end
}

// Whether an output is shorter than the file, of which the faces' lines are to begin at `start`. Where it has room for as many faces of the longest lines
// no line is measured.
fn is_short(t: &[u8], n: usize, s: Style, faces: u32, start: usize, len: usize) -> bool
    requires in_order { InOrder t.now × (n ≡ slots_of t.now) }
    requires t_value { (torn_of t.now ≡ false) × (s.first ≤ 1) }
    requires faces_value { (faces ≡ faces_in t.now) × (start ≤ start_most) }
    ensures { result ≡ ltb len (start + length (face_part s t.now)) }
{
    if start + FACE_MOST * faces as usize <= len {
        return false;
    }
    let w = widths_of(t, n, s.first);
    len < start + faces_length(t, n, s, w)
}

// Writes the file of an untorn table.
fn write_file(
    t: &[u8],
    n: usize,
    s: Style,
    c: Counts,
    plain: bool,
    out: &mut [u8],
) -> Result<u64, Refusal>
    requires in_order { InOrder t.now × (n ≡ slots_of t.now) }
    requires t_value { (torn_of t.now ≡ false) × (s.first ≤ 1) }
    requires c_value { (c ≡ counts_of t.now) × (plain ≡ true → plain_of t.now ≡ true) }
    ensures { output_after (number_told result) (bytes_told result) out.new ≡ put_of (viewer_file s t.now) out.old }
{
    let start = head_length(s, c) + vertices_length(t, n, s);
    if is_short(t, n, s, c.faces, start, out.len()) {
        return Err(Refusal::Short);
    }
    let total = write_body(t, n, s, plain, out, start, c.faces);
    write_head(out, s, c);
    Ok(total as u64)
}

// Writes the file in a style, and tells its bytes. Where all corners are plain nothing is torn.
fn write(t: &[u8], s: Style, out: &mut [u8]) -> Result<u64, Refusal>
    requires { s.first ≤ 1 }
    ensures { output_after (number_told result) (bytes_told result) out.new ≡ view_of s t.now out.old }
{
    if !in_order(t) {
        return Err(Refusal::NotInOrder);
    }
    let n = slots_of(t);
    let found = surveyed(t, n);
    if !found.plain && any_torn(t, n) {
        return Err(Refusal::Torn);
    }
    write_file(t, n, s, found.counts, found.plain, out)
}

// Writes the OFF file of a table, and tells its bytes. Refused as not in order, torn or short, no byte is changed; bytes past the file never are.
// In time n log n for n slots, as long as the searches are short, with no memory but the output and a little stack.
pub fn write_off(table: &[u8], out: &mut [u8]) -> Result<u64, Refusal>
    ensures { output_after (number_told result) (bytes_told result) out.new ≡ write_off_of table.now out.old }
{
    write(table, OFF, out)
}

// Writes the OBJ file of a table, as `write_off` in all else.
pub fn write_obj(table: &[u8], out: &mut [u8]) -> Result<u64, Refusal>
    ensures { output_after (number_told result) (bytes_told result) out.new ≡ write_obj_of table.now out.old }
{
    write(table, OBJ, out)
}
