// The table after a subdivision: the centre, its old adjacent vertices, its new ones, each at the slot that a search met.
ghost use Rattle.std.specs.Prelude.{◌≡◌, ◌+◌, ◌*◌, ◌≤◌, ◌<◌, length};
ghost use Rattle.lattice.specs.AnswerRows.{answer_numbers};
ghost use Rattle.lattice.specs.RecordLaws.{Inner};
ghost use Rattle.lattice.specs.Stars.{adjacent_at, given};
ghost use Rattle.lattice.specs.Subdivision.{centre_of, born_of};
ghost use Rattle.table.specs.Slots.{slot_width, Table};
ghost use Rattle.mesh.specs.Subdivide.{renewed_to, entered_to, subdivided};
ghost use Rattle.mesh.specs.SubdivideLaws.{Intact};
ghost use Rattle.mesh.specs.WriteLaws.{Renewable, ByteLevel, renew_slot};
ghost use Rattle.mesh.specs.Met.{InSlot, OldIn, StoppedAt, ComeTo};

use lattice::{ANSWER_NUMBERS, Point, Record, back, centre, point_at, updated};
use table::{enter_from, read_slot, write_slot};

// The vertex in slot i after its rule, whether or not there is one.
fn renew_slot(t: &mut [u8], i: usize, back: u8)
    requires { (slot_width * i + slot_width ≤ length t.old) × ((back < 12) × ByteLevel t.old i) }
    ensures { t.new ≡ renew_slot t.old i back }
{
    if let Some(u) = read_slot(t, i) {
        write_slot(t, i, updated(back, u));
    }
}

// All six old adjacent vertices after their rules, in star order, by their slots.
fn renew_all(t: &mut [u8], v: Record, slots: &[usize; 6])
    requires { Renewable t.old v × OldIn t.old v slots.now 6 }
    ensures { t.new ≡ renewed_to t.old v 6 }
{
    for j in 0..6 {
        renew_slot(t, slots[usize::from(j)], back(v.k, j));
    }
}

// The vertex that enters at p, which is place j of the star of c.
fn born_at(c: Record, p: Point, j: u8) -> Record
    requires { (c.k < 12) × ((j < 6) × (p ≡ adjacent_at c j)) }
    ensures { result ≡ born_of c j }
{
    let k = back(c.k, j) % 4;
    let n = c.n;
    Record { at: p, d: 3, k, n }
}

// The six vertices that the star of c starts with, in its order, each by a search that goes on from the slot told.
fn enter_all(t: &mut [u8], c: Record, new: &[i32; ANSWER_NUMBERS], slots: &[usize; 6], n: usize)
    requires { Table t.old n × (Inner c × ((c.d ≡ 6) × ((new.now ≡ answer_numbers (given c)) × ComeTo t.old c slots.now 6))) }
    ensures { t.new ≡ entered_to t.old c 6 }
{
    for j in 0..6 {
        let r = born_at(c, point_at(new, c, j), j);
        enter_from(t, r, slots[usize::from(j)], n);
    }
}

// The whole subdivision of v, which stands in slot i.
pub fn divide(
    t: &mut [u8],
    v: Record,
    i: usize,
    stand: &[usize; 6],
    new: &[i32; ANSWER_NUMBERS],
    told: &[usize; 6],
    n: usize,
)
    requires table { Table t.old n × (Intact t.old v × InSlot t.old v i) }
    requires old_in { OldIn t.old v stand.now 6 }
    requires value { (new.now ≡ answer_numbers (given (centre_of v))) × StoppedAt t.old (centre_of v) told.now 6 }
    ensures { t.new ≡ subdivided t.old v }
{
    let c = centre(v);
    write_slot(t, i, c);
    renew_all(t, v, stand);
    enter_all(t, c, new, told, n);
}
