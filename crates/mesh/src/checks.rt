// Whether a subdivision would tear the mesh; and the slots that its searches met.
ghost use Rattle.std.specs.Prelude.{◌≡◌, true, false, not, ◌<◌, MatchOption};
ghost use Rattle.laws.specs.Rules.{upto};
ghost use Rattle.lattice.specs.AnswerRows.{answer_numbers};
ghost use Rattle.lattice.specs.RecordLaws.{Inner};
ghost use Rattle.lattice.specs.Stars.{adjacent_at, given};
ghost use Rattle.table.specs.Slots.{Table, slots_of, slot_at, free_slots};
ghost use Rattle.table.specs.Entries.{held_in, holds};
ghost use Rattle.mesh.specs.Subdivide.{fits_at, adjacent_fits};
ghost use Rattle.mesh.specs.SubdivideLaws.{Ready};
ghost use Rattle.mesh.specs.Met.{OldIn, StoppedAt};

use lattice::{ANSWER_NUMBERS, Record, accepts, back, point_at};
use table::{Found, find, held_in};

// The rule of the old adjacent vertex at place j, which stands in slot i, applies.
fn fits_in(t: &[u8], v: Record, j: u8, i: usize) -> bool
    requires { Ready t.now v × ((j < 6) × (i < slots_of t.now)) }
    ensures { result ≡ fits_at v j (held_in (slot_at t.now i)) }
{
    let level = v.n;
    match held_in(t, i) {
        None => false,
        Some(u) => accepts(back(v.k, j), level, u),
    }
}

// The slots of the six old adjacent vertices, if all are there and their rules apply.
pub fn adjacents_fit(
    t: &[u8],
    v: Record,
    old: &[i32; ANSWER_NUMBERS],
    n: usize,
) -> Option<[usize; 6]>
    requires { Table t.now n × (Ready t.now v × (old.now ≡ answer_numbers (given v))) }
    ensures { MatchOption result (upto 6 (adjacent_fits t.now v) ≡ false)
        (λ slots. (upto 6 (adjacent_fits t.now v) ≡ true) × OldIn t.now v slots 6) }
{
    let mut slots = [0; 6];
    for j in 0..6 {
        let Found::At(i) = find(t, point_at(old, v, j), n) else {
            return None;
        };
        if !fits_in(t, v, j, i) {
            return None;
        }
        slots[usize::from(j)] = i;
    }
    Some(slots)
}

// If no vertex stands at any point of the star of c, the slots where the searches ended, which are free if any slot is.
pub fn all_absent(t: &[u8], c: Record, new: &[i32; ANSWER_NUMBERS], n: usize) -> Option<[usize; 6]>
    requires { Table t.now n × (Inner c × ((c.d ≡ 6) × (new.now ≡ answer_numbers (given c)))) }
    ensures { MatchOption result (upto 6 (λ j. not (holds t.now (adjacent_at c j))) ≡ false)
        (λ slots. (upto 6 (λ j. not (holds t.now (adjacent_at c j))) ≡ true) × (0 < free_slots t.now → StoppedAt t.now c slots 6)) }
{
    let mut slots = [0; 6];
    for j in 0..6 {
        match find(t, point_at(new, c, j), n) {
            Found::At(_) => return None,
            Found::Free(i) => slots[usize::from(j)] = i,
            Found::Full => {}
        }
    }
    Some(slots)
}
