// The lines, from the last back: keys stand sorted before them, and no line meets the keys that are left.
ghost use Rattle.std.specs.Prelude.{◌≡◌, List, ◌++◌, ℕ, ◌+◌, ◌*◌, ◌%◌, ◌≤◌, ◌<◌, length, drop};
ghost use Rattle.laws.specs.Stores.{Wrote};
ghost use Rattle.table.specs.Slots.{slot_width, slots_of, slot_at};
ghost use Rattle.table.specs.Order.{InOrder};
ghost use Rattle.text.specs.LineOrder.{Close};
ghost use Rattle.sorting.specs.Sorting.{key_width, keys_in};
ghost use Rattle.writers.specs.Kept.{places, standing, Added};
ghost use Rattle.writers.specs.KeptLaws.{Filled};
ghost use Rattle.viewer_lines.specs.ViewerLines.{head_text, vertex_text, texts};
ghost use Rattle.numbering.specs.Keyed.{keyed, keys_below, record_keyed};
ghost use Rattle.numbering.specs.Ranks.{Stand, ordered};
ghost use Rattle.viewer_lines.specs.Lines.{key_line, face_most, vertex_most, head_most, slot_line, vertex_line, Queue};

use crate::corners::unpack;
use crate::lengths::FACE_WIDTH;
use crate::styles::Style;
use coordinates::{BLANK, position_back, position_length};
use counts::Counts;
use lattice::{Record, blank};
use numbering::PLACES;
use sorting::{key, put_key};
use table::read_slot;
use text::{FEED, number_back, order, width, write_bytes, write_number};

// The bytes of `v`, or of what stands before a face, and its blank.
const MARK_WIDTH: usize = 2;

// The bytes of the head that are no digits: OFF, and what ends the lines and the numbers.
const HEAD_WIDTH: usize = 7;

// ---- vertices

// How long the line of a vertex is.
fn vertex_length(s: Style, r: Record) -> usize
    requires { Close r.at }
    ensures { (result ≡ length (vertex_text s r)) × (result ≤ vertex_most) }
{
    let w = position_length(r.at);
    if s.marked { w + MARK_WIDTH } else { w }
}

// The same of what slot i holds.
fn slot_vertex_length(t: &[u8], i: usize, s: Style) -> usize
    requires { InOrder t.now × (i < slots_of t.now) }
    ensures { (result ≡ length (slot_line s (slot_at t.now i))) × (result ≤ vertex_most) }
{
    match read_slot(t, i) {
        None => 0,
        Some(r) => vertex_length(s, r),
    }
}

// How long the lines of all vertices are.
pub fn vertices_length(t: &[u8], n: usize, s: Style) -> usize
    requires { InOrder t.now × (n ≡ slots_of t.now) }
    ensures { (result ≡ length (texts (vertex_text s) (standing (slot_at t.now) n))) × (result ≤ vertex_most * places) }
{
    let mut total = 0;
    for i in 0..n {
        total += slot_vertex_length(t, i, s);
    }
    total
}

// Stores the key of slot i as key k, if it holds a record, and gives how many keys there are then.
fn put_vertex(t: &[u8], i: usize, out: &mut [u8], k: usize) -> usize
    requires in_order { InOrder t.now × (i < slots_of t.now) }
    requires i_in_bounds { key_width * (k + length (keyed i (slot_at t.now i))) ≤ length out.old }
    ensures { Added out.old k (keyed i (slot_at t.now i)) out.new result }
{
    match read_slot(t, i) {
        None => k,
        Some(r) => {
            put_key(out, k, order(r.at) * PLACES + i as u64);
            k + 1
        }
    }
}

// Stores the keys of all vertices, and gives how many there are.
pub fn put_vertices(t: &[u8], n: usize, out: &mut [u8]) -> usize
    requires in_order { InOrder t.now × (n ≡ slots_of t.now) }
    requires n_in_bounds { key_width * length (keys_below (slot_at t.now) n) ≤ length out.old }
    ensures { Filled out.old (keys_below (slot_at t.now) n) out.new result }
{
    let mut k = 0;
    for i in 0..n {
        k = put_vertex(t, i, out, k);
    }
    k
}

// Writes the line of a vertex before a position, and gives the position where it begins.
fn vertex_back(out: &mut [u8], end: usize, s: Style, r: Record) -> usize
    requires { Close r.at × ((length (vertex_text s r) ≤ end) × (end ≤ length out.old)) }
    ensures { Wrote out.old result (vertex_text s r) out.new end }
{
    let at = position_back(out, end, r.at);
    if s.marked {
        let mark = [b'v', BLANK];
        let from = at - MARK_WIDTH;
        write_bytes(out, from, &mark);
        return from;
    }
    at
}

// The record of a key.
fn record_keyed(t: &[u8], v: u64) -> Record
    requires { slot_width * (v % places) + slot_width ≤ length t.now }
    ensures { result ≡ record_keyed t.now v }
{
    let i = (v % PLACES) as usize;
    match read_slot(t, i) {
        None => blank(),
        Some(r) => r,
    }
}

// Writes the lines of k sorted keys of vertices, the last before a position.
pub fn write_vertices(t: &[u8], out: &mut [u8], k: usize, end: usize, s: Style)
    requires in_order { InOrder t.now × Stand t.now out.old k }
    requires t_len_bound { (length (texts (vertex_line s t.now) (ordered t.now)) ≤ end) × (end ≤ length out.old) }
    ensures by_index { (from : ℕ) → from + length (texts (vertex_line s t.now) (ordered t.now)) ≡ end
        → drop from out.new ≡ texts (vertex_line s t.now) (ordered t.now) ++ drop end out.old }
    ensures out_len_unchanged { length out.new ≡ length out.old }
{
    let mut at = end;
    for i in (0..k).rev() {
        let r = record_keyed(t, key(out, i));
        at = vertex_back(out, at, s, r);
    }
}

// ---- faces

// Writes the line of a face before a position, and gives the position where it begins.
fn face_back(out: &mut [u8], end: usize, s: Style, v: u64) -> usize
    requires { (s.first ≤ 1) × ((length (key_line s v) ≤ end) × (end ≤ length out.old)) }
    ensures { Wrote out.old result (key_line s v) out.new end }
{
    let q = unpack(v);
    let first = s.first;
    let past_c = number_back(out, end, first + q.d as u32, FEED);
    let past_b = number_back(out, past_c, first + q.c as u32, BLANK);
    let past_a = number_back(out, past_b, first + q.b as u32, BLANK);
    let past = number_back(out, past_a, first + q.a as u32, BLANK);
    let mark = [s.face, BLANK];
    let at = past - MARK_WIDTH;
    write_bytes(out, at, &mark);
    at
}

// How long the line of a face is, by its key.
fn key_length(s: Style, v: u64) -> usize
    requires { s.first ≤ 1 }
    ensures { (result ≡ length (key_line s v)) × (result ≤ face_most) }
{
    let q = unpack(v);
    let first = s.first;
    let a = width(first + q.a as u32);
    let b = width(first + q.b as u32);
    let c = width(first + q.c as u32);
    let d = width(first + q.d as u32);
    FACE_WIDTH + a + b + c + d
}

// How long the lines of k keys of faces are.
pub fn keys_length(out: &[u8], k: usize, s: Style) -> usize
    requires first_bound { (s.first ≤ 1) × (key_width * k ≤ length out.now) }
    requires k_in_bounds { length (texts (key_line s) (keys_in out.now k)) ≤ length out.now }
    ensures { result ≡ length (texts (key_line s) (keys_in out.now k)) }
{
    let mut total = 0;
    for i in 0..k {
        total += key_length(s, key(out, i));
    }
    total
}

// Writes the lines of k sorted keys of faces, the last before a position.
pub fn write_faces(out: &mut [u8], k: usize, end: usize, s: Style)
    requires { (s.first ≤ 1) × ((ks : List ℕ) × Queue s ks out.old k end) }
    ensures by_index { (ks : List ℕ) (from : ℕ) → Queue s ks out.old k end → from + length (texts (key_line s) ks) ≡ end
        → drop from out.new ≡ texts (key_line s) ks ++ drop end out.old }
    ensures out_len_unchanged { length out.new ≡ length out.old }
{
    let mut at = end;
    for i in (0..k).rev() {
        at = face_back(out, at, s, key(out, i));
    }
}

// ---- the head

// How long the head is.
pub fn head_length(s: Style, c: Counts) -> usize
    ensures { (result ≡ length (head_text s c)) × (result ≤ head_most) }
{
    if s.head {
        width(c.vertices) + width(c.faces) + width(c.edges) + HEAD_WIDTH
    } else {
        0
    }
}

// Writes the head.
pub fn write_head(out: &mut [u8], s: Style, c: Counts)
    requires { length (head_text s c) ≤ length out.old }
    ensures { out.new ≡ head_text s c ++ drop (length (head_text s c)) out.old }
{
    if s.head {
        let name = [b'O', b'F', b'F', FEED];
        let past_name = write_bytes(out, 0, &name);
        let past_v = write_number(out, past_name, c.vertices, BLANK);
        let past_f = write_number(out, past_v, c.faces, BLANK);
        write_number(out, past_f, c.edges, FEED);
    }
}
