// The search for a point: from its home slot on, wrapping once round the table.
ghost use Rattle.std.specs.Prelude.{◌≡◌, ◌+◌, ◌*◌, ◌≤◌, ◌<◌, length};
ghost use Rattle.table.specs.Reading.{First};
ghost use Rattle.table.specs.Slots.{slot_width, Table, free_at, record_at, slot_at};
ghost use Rattle.table.specs.Search.{same_point, meets, next, find_of};
ghost use Rattle.table.specs.Told.{Reaches, Told};

use crate::bytes::{pair, word};
use crate::home::home;
use crate::slots::SLOT_WIDTH;
use lattice::Point;

// Eight bytes of 255.
const TWO_ONES: u64 = u64::MAX;

// Where a search ends: at the slot of its point, at a free slot, or nowhere, all slots being taken by others.
#[derive(Clone, Copy)]
pub enum Found {
    At(usize),
    Free(usize),
    Full,
}

// What a search meets in one slot: its point, no record, or another point's record.
#[derive(Clone, Copy)]
pub enum Meet {
    Hit,
    Gap,
    Other,
}

// The first two words of the slot at byte s.
pub fn first_words(t: &[u8], s: usize) -> u64
    requires { s + slot_width ≤ length t.now }
    ensures { First t.now s result }
{
    pair(word(t, s), word(t, s + 4))
}

// The slot at byte s, which begins with `first`, is free.
fn is_gap(t: &[u8], s: usize, first: u64) -> bool
    requires slot_width_in_bounds { s + slot_width ≤ length t.now }
    requires first { First t.now s first }
    ensures { result ≡ free_at t.now s }
{
    first == TWO_ONES && word(t, s + 8) == u32::MAX
}

// The record at byte s, which begins with `first`, is p's.
fn is_hit(t: &[u8], s: usize, first: u64, p: Point) -> bool
    requires slot_width_in_bounds { s + slot_width ≤ length t.now }
    requires first { First t.now s first }
    ensures { result ≡ same_point (record_at t.now s).at p }
{
    first == pair(p.a.cast_unsigned(), p.b.cast_unsigned()) && t[s + 8] == p.m.0
}

// What a search for p meets in slot i. The first two words are compared at once, the rest only where they are what is looked for.
fn look(t: &[u8], i: usize, p: Point) -> Meet
    requires { slot_width * i + slot_width ≤ length t.now }
    ensures { result ≡ meets (slot_at t.now i) p }
{
    let s = SLOT_WIDTH * i;
    let first = first_words(t, s);
    if is_gap(t, s, first) {
        Meet::Gap
    } else if is_hit(t, s, first, p) {
        Meet::Hit
    } else {
        Meet::Other
    }
}

// The slot after i, wrapping.
fn after(n: usize, i: usize) -> usize
    requires { i < n }
    ensures { result ≡ next n i }
{
    let j = i + 1;
    if j == n { 0 } else { j }
}

// The search for p, which comes as far as slot `start`, gone on with from there: once round the table, to the point or the first free slot.
// A loop, and no `for`: it yields where it ends, and its slots wrap.
pub fn find_from(t: &[u8], p: Point, start: usize, n: usize) -> Found
    requires { Table t.now n × Reaches t.now p start }
    ensures value { result ≡ find_of t.now p }
    ensures told { Told t.now p result }
{
    let mut i = start;
    let mut left = n;
    loop {
        if left == 0 {
            break Found::Full;
        }
        match look(t, i, p) {
            Meet::Hit => break Found::At(i),
            Meet::Gap => break Found::Free(i),
            Meet::Other => {}
        }
        i = after(n, i);
        left -= 1;
    }
}

// The search for p, in a table of n slots: where it ends, and what that tells.
pub fn find(t: &[u8], p: Point, n: usize) -> Found
    requires { Table t.now n }
    ensures value { result ≡ find_of t.now p }
    ensures told { Told t.now p result }
{
    find_from(t, p, home(p, n), n)
}
