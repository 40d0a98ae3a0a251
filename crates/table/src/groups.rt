// A group of slots asked at once for a point, with no branch from one slot to the next.
ghost use Rattle.std.specs.Prelude.{◌≡◌, ◌+◌, ◌*◌, ◌≤◌, length};
ghost use Rattle.lattice.specs.Points.{pt};
ghost use Rattle.table.specs.Slots.{slot_width};
ghost use Rattle.table.specs.Reading.{group, reads_as, NoneIn};

use crate::bytes::pair;
use crate::probe::first_words;
use crate::slots::SLOT_WIDTH;

// How many slots are asked at once.
pub const GROUP: usize = 8;

// The bytes of slot i, free or not, read as a record of [a, b, m].
pub fn reads_as(t: &[u8], a: i32, b: i32, m: u8, i: usize) -> bool
    requires { slot_width * i + slot_width ≤ length t.now }
    ensures { result ≡ reads_as t.now (pt a b m) i }
{
    let s = SLOT_WIDTH * i;
    (first_words(t, s) == pair(a.cast_unsigned(), b.cast_unsigned())) & (t[s + 8] == m)
}

// Slot i where it begins with the words of a and b, else another. No branch: which slot a record stands in cannot be foreseen.
fn slot_if_begins(t: &[u8], a: i32, b: i32, i: usize, other: usize) -> usize
    requires { slot_width * i + slot_width ≤ length t.now }
    ensures { (result ≡ i → ⊥) → (result ≡ other) × NoneIn t.now a b i 1 }
{
    if first_words(t, SLOT_WIDTH * i) == pair(a.cast_unsigned(), b.cast_unsigned()) {
        i
    } else {
        other
    }
}

// A slot of the group that begins at slot h where [a, b, m] could stand, whatever m is; where there is none, the slot past the group.
pub fn guess_in_group(t: &[u8], a: i32, b: i32, h: usize) -> usize
    requires { slot_width * (h + group) ≤ length t.now }
    ensures lower_bound { (h ≤ result) × (result ≤ h + group) }
    ensures none_in { result ≡ h + group → NoneIn t.now a b h group }
{
    let mut guess = h + GROUP;
    for k in 0..GROUP {
        guess = slot_if_begins(t, a, b, h + k, guess);
    }
    guess
}
