// The local test of one record, and of every record of a table.
ghost use Rattle.std.specs.Prelude.{◌≡◌, true, not, ◌||◌, ◌<◌, eqb};
ghost use Rattle.lattice.specs.Records.{valid_of};
ghost use Rattle.growth.specs.Local.{six_test, local_test};
ghost use Rattle.table.specs.Slots.{Table, slots_of};
ghost use Rattle.table.specs.Order.{InOrder, in_order_of};
ghost use Rattle.local.specs.Sheet.{sheet_of, passes_all};
ghost use Rattle.local.specs.Slots.{judged_at};

use crate::lookups::adjacents_there;
use crate::places::place_passes;
use lattice::{Record, rank};
use table::read_slot;

// What degree 6 asks: a level of at least the rank, and all six adjacents.
fn six_passes(t: &[u8], r: Record, n: usize) -> bool
    requires table { Table t.now n × (valid_of r ≡ true) }
    requires t_value { in_order_of t.now ≡ true }
    ensures { result ≡ not (eqb r.d 6) || six_test (sheet_of t.now) r }
{
    let p = r.at;
    if r.d != 6 {
        return true;
    }
    if r.n.0 < rank(p).0 {
        return false;
    }
    adjacents_there(t, r, n)
}

// The test of one valid record, in a table of n slots.
fn passes(t: &[u8], r: Record, n: usize) -> bool
    requires table { Table t.now n × (valid_of r ≡ true) }
    requires t_value { in_order_of t.now ≡ true }
    ensures { result ≡ local_test (sheet_of t.now) r }
{
    place_passes(t, r, n) && six_passes(t, r, n)
}

// Whether the record in slot i passes, if one is there.
fn judge(t: &[u8], i: usize, n: usize) -> Option<bool>
    requires { InOrder t.now × ((n ≡ slots_of t.now) × (i < n)) }
    ensures { result ≡ judged_at t.now i }
{
    match read_slot(t, i) {
        None => None,
        Some(r) => Some(passes(t, r, n)),
    }
}

// Whether a table in order holds a record, and each that it holds passes. The first that fails ends it.
pub fn all_pass(t: &[u8], n: usize) -> bool
    requires { InOrder t.now × (n ≡ slots_of t.now) }
    ensures { result ≡ passes_all t.now }
{
    let mut any = false;
    for i in 0..n {
        if let Some(good) = judge(t, i, n) {
            if !good {
                return false;
            }
            any = true;
        }
    }
    any
}
