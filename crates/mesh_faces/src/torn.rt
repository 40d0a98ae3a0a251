// Whether some vertex is torn: an adjacent point, or the opposite of a corner, is not in the table.
ghost use Rattle.std.specs.Prelude.{◌≡◌, true, ◌<◌};
ghost use Rattle.lattice.specs.Records.{valid_of};
ghost use Rattle.lattice.specs.RecordLaws.{Inner};
ghost use Rattle.table.specs.Slots.{Table, slots_of};
ghost use Rattle.table.specs.Order.{InOrder};
ghost use Rattle.mesh_faces.specs.MeshFaces.{torn_at, torn_of};
ghost use Rattle.mesh_faces.specs.Once.{whole_corner, slot_torn};

use lattice::{Record, adjacent_of};
use queries::chosen;
use table::{is_there, read_slot};

// Place j of v has its adjacent point and its corner's opposite in the table.
fn is_whole(t: &[u8], v: Record, j: u8, n: usize) -> bool
    requires table { Table t.now n }
    requires inner { Inner v × (j < v.d) }
    ensures { result ≡ whole_corner t.now v j }
{
    if !is_there(t, adjacent_of(v, j), n) {
        return false;
    }
    match chosen(t, v, j, n) {
        Some(_) => true,
        None => false,
    }
}

// The faces query at v is torn.
fn star_torn(t: &[u8], v: Record, n: usize) -> bool
    requires table { Table t.now n }
    requires v_value { valid_of v ≡ true }
    ensures { result ≡ torn_at t.now v }
{
    for j in 0..v.d {
        if !is_whole(t, v, j, n) {
            return true;
        }
    }
    false
}

// The same of what slot i holds.
fn slot_torn(t: &[u8], i: usize, n: usize) -> bool
    requires { InOrder t.now × ((n ≡ slots_of t.now) × (i < n)) }
    ensures { result ≡ slot_torn t.now i }
{
    match read_slot(t, i) {
        None => false,
        Some(v) => star_torn(t, v, n),
    }
}

// Some vertex is torn.
pub fn any_torn(t: &[u8], n: usize) -> bool
    requires { InOrder t.now × (n ≡ slots_of t.now) }
    ensures { result ≡ torn_of t.now }
{
    for i in 0..n {
        if slot_torn(t, i, n) {
            return true;
        }
    }
    false
}
