// Guesses of numbers: the number of the vertex in each slot, as keys past those of vertices and faces, where the file has room for them. They only guide:
// a number is right whatever is guessed.
ghost use Rattle.std.specs.Prelude.{◌≡◌, true, ◌+◌, ◌*◌, ◌≤◌, ◌<◌, length};
ghost use Rattle.sorting.specs.Sorting.{key_width};
ghost use Rattle.writers.specs.Kept.{places};
ghost use Rattle.numbering.specs.Guesses.{lengths, vertex_least, face_least, Guessed};

use crate::numbers::PLACES;
use sorting::{key, put_key};

// The bytes of a key.
pub const KEY_WIDTH: usize = 8;

// The least bytes of a face's line.
const FACE_LEAST: usize = 10;

// Where the guesses begin, 0 where the file, of which the faces' lines begin at `start`, has no room for them. No plainer as an Option: `guess` takes any base.
pub fn base_of(vertices: usize, faces: u32, n: usize, start: usize) -> usize
    requires { (vertex_least * vertices ≤ start) × ((n ≤ places) × (start + face_least * faces < lengths)) }
    ensures { vertices < result → key_width * (result + n) ≤ start + face_least * faces }
{
    let many = faces as usize;
    let base = vertices + many;
    let room = start + FACE_LEAST * many - KEY_WIDTH * base;
    if KEY_WIDTH * n <= room { base } else { 0 }
}

// The guess for a slot, 0 where none is stored.
pub fn guess(out: &[u8], base: usize, slot: usize) -> usize {
    let last = out.len() / KEY_WIDTH;
    if base < last && slot < last - base {
        key(out, base + slot) as usize
    } else {
        0
    }
}

// Stores the guess of key i of k.
fn put_guess(out: &mut [u8], k: usize, base: usize, n: usize, i: usize)
    requires { (i < k) × ((k < base) × (key_width * (base + n) ≤ length out.old)) }
    ensures { Guessed out.old k base n out.new }
{
    let slot = (key(out, i) % PLACES) as usize;
    if slot < n {
        put_key(out, base + slot, i as u64);
    }
}

// Whether a guess for each of n slots has room past k keys.
fn has_room(len: usize, k: usize, base: usize, n: usize) -> bool
    ensures { result ≡ true → (k < base) × (key_width * (base + n) ≤ len) }
{
    let last = len / KEY_WIDTH;
    k < base && base <= last && n <= last - base
}

// Stores the guesses of k sorted keys of vertices.
pub fn put_guesses(out: &mut [u8], k: usize, base: usize, n: usize)
    requires { (key_width * k ≤ length out.old) × (n ≤ places) }
    ensures { Guessed out.old k base n out.new }
{
    if has_room(out.len(), k, base, n) {
        for i in 0..k {
            put_guess(out, k, base, n, i);
        }
    }
}
