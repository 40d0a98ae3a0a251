// The opposite of a corner with its slot, and which of the two it is.
ghost use Rattle.std.specs.Prelude.{◌≡◌, ◌<◌};
ghost use Rattle.lattice.specs.RecordLaws.{Inner};
ghost use Rattle.table.specs.Slots.{Table};
ghost use Rattle.firsts.specs.Choices.{kept_of, choice_of};

use crate::earlier::{Placed, with_slot};
use lattice::{Point, Record, first_of, second_of};

// An opposite of a corner with its slot, and whether it is the second.
#[derive(Clone, Copy)]
pub struct Opposite {
    pub second: bool,
    pub placed: Placed,
}

// The second, if there is one and it is in the table.
fn kept(t: &[u8], s: Option<Point>, n: usize) -> Option<Opposite>
    requires { Table t.now n }
    ensures { result ≡ kept_of t.now s }
{
    match s {
        Some(p) => {
            let placed = with_slot(t, p, n);
            if placed.slot < n {
                Some(Opposite {
                    second: true,
                    placed,
                })
            } else {
                None
            }
        }
        None => None,
    }
}

// The opposite that corner j of v has: the first one if that is in the table, else the second if that is.
pub fn choose(t: &[u8], v: Record, j: u8, n: usize) -> Option<Opposite>
    requires table { Table t.now n }
    requires inner { Inner v × (j < v.d) }
    ensures { result ≡ choice_of t.now v j }
{
    let placed = with_slot(t, first_of(v, j), n);
    if placed.slot < n {
        return Some(Opposite {
            second: false,
            placed,
        });
    }
    kept(t, second_of(v, j), n)
}
