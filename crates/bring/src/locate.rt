// Where a vertex stands: the one search for it.
ghost use Rattle.table.specs.Slots.{Table};
ghost use Rattle.bring.specs.ChainLaws.{Locates};

use lattice::{Point, Record};
use table::{Found, find, held_in};

// The record at a point, and its slot.
pub fn locate(t: &[u8], p: Point, n: usize) -> Option<(Record, usize)>
    requires { Table t.now n }
    ensures { Locates t.now p result }
{
    let Found::At(i) = find(t, p, n) else {
        return None;
    };
    let Some(u) = held_in(t, i) else {
        return None;
    };
    Some((u, i))
}
