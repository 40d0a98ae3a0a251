// The slots of a table: how many there are, and what each holds.
ghost use Rattle.std.specs.Prelude.{◌≡◌, ◌+◌, ◌*◌, ◌≤◌, ◌<◌, length};
ghost use Rattle.table.specs.Slots.{slot_width, slots_of, slot_at, put_slot, cleared_of, is_free};
ghost use Rattle.table.specs.Reading.{all_ones};

use crate::bytes::{put_bytes, put_word, word};
use lattice::{Depth, Level, Point, Record};

// The bytes of a slot, and how many slots a table may have.
pub const SLOT_WIDTH: usize = 12;

const FEWEST: usize = 16;

pub const MOST: usize = 65536;

// The number of slots, or 0 where the length doesn't fit: a number and no Option, since what the C interface promises counts the slots of any bytes.
#[tactic(auto, unfolding(crate::specs::Slots::slots_in))]
pub fn slots_of(t: &[u8]) -> usize
    ensures { result ≡ slots_of t.now }
{
    let n = t.len() / SLOT_WIDTH;
    if (t.len() % SLOT_WIDTH == 0) & (FEWEST <= n) & (n <= MOST) {
        n
    } else {
        0
    }
}

// Three words of ones: twelve bytes of 255.
fn all_ones(a: u32, b: u32, c: u32) -> bool
    ensures { result ≡ all_ones a b c }
{
    (a == u32::MAX) & (b == u32::MAX) & (c == u32::MAX)
}

// What slot i holds.
pub fn read_slot(t: &[u8], i: usize) -> Option<Record>
    requires { slot_width * i + slot_width ≤ length t.now }
    ensures { result ≡ slot_at t.now i }
{
    let p = SLOT_WIDTH * i;
    let a = word(t, p);
    let b = word(t, p + 4);
    let c = word(t, p + 8);
    if all_ones(a, b, c) {
        return None;
    }
    Some(Record {
        at: Point {
            a: a.cast_signed(),
            b: b.cast_signed(),
            m: Depth(t[p + 8]),
        },
        d: t[p + 9],
        k: t[p + 10],
        n: Level(t[p + 11]),
    })
}

// Writes a record into slot i; no other slot changes.
pub fn write_slot(t: &mut [u8], i: usize, r: Record)
    requires { slot_width * i + slot_width ≤ length t.old }
    ensures { t.new ≡ put_slot t.old i r }
{
    let p = SLOT_WIDTH * i;
    put_word(t, p, r.at.a.cast_unsigned());
    put_word(t, p + 4, r.at.b.cast_unsigned());
    put_bytes(t, p + 8, [r.at.m.0, r.d, r.k, r.n.0]);
}

// Clears a table: every byte becomes 255, so every slot is free.
pub fn clear(t: &mut [u8])
    ensures { t.new ≡ cleared_of t.old }
{
    t.fill(255);
}

// Copies one table over another of the same length. Byte by byte: the library's copy would ask for a C function that an archive has no need of.
pub fn copy(from: &[u8], to: &mut [u8])
    requires { length to.old ≡ length from.now }
    ensures { to.new ≡ from.now }
{
    for i in 0..from.len() {
        to[i] = from[i];
    }
}

// 1 where slot i is free, else 0.
pub fn one_if_free(t: &[u8], i: usize) -> usize
    requires { slot_width * i + slot_width ≤ length t.now }
    ensures { (result ≡ is_free (slot_at t.now i)) × (result ≤ 1) }
{
    usize::from(matches!(read_slot(t, i), None))
}
