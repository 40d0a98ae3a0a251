// Whether points are there.
ghost use Rattle.std.specs.Prelude.{◌≡◌, true, ◌%◌, ◌≤◌, ◌<◌};
ghost use Rattle.laws.specs.Rules.{upto};
ghost use Rattle.lattice.specs.Bounds.{Small};
ghost use Rattle.lattice.specs.RecordLaws.{Inner};
ghost use Rattle.lattice.specs.Stars.{adjacent_at};
ghost use Rattle.growth.specs.Local.{there};
ghost use Rattle.table.specs.Slots.{Table};
ghost use Rattle.table.specs.Order.{in_order_of};
ghost use Rattle.local.specs.Sheet.{sheet_of};
ghost use Rattle.local.specs.Rings.{ring_of};

use lattice::{ANSWER_NUMBERS, Level, Point, Record, moved, point_at, ring};
use table::{is_there, stands};

// How many of three points are there: those one unit from p in direction e and in every fourth from it on.
pub fn ring_count(t: &[u8], p: Point, e: u8, n: usize) -> u8
    requires table { Table t.now n }
    requires small { Small p × ((e < 4) × (e % 2 ≡ 0)) }
    ensures { (result ≡ ring_of (sheet_of t.now) p e) × (result ≤ 3) }
{
    let x = is_there(t, moved(p, e, Level(0)), n);
    let y = is_there(t, moved(p, e + 4, Level(0)), n);
    let z = is_there(t, moved(p, e + 8, Level(0)), n);
    u8::from(x) + u8::from(y) + u8::from(z)
}

// All six adjacents of a record of degree 6 are there.
pub fn adjacents_there(t: &[u8], r: Record, n: usize) -> bool
    requires table { Table t.now n × (in_order_of t.now ≡ true) }
    requires inner { Inner r × (r.d ≡ 6) }
    ensures { result ≡ upto 6 (λ j. there (sheet_of t.now) (adjacent_at r j)) }
{
    let mut row = [0; ANSWER_NUMBERS];
    ring(&mut row, r);
    for j in 0..6 {
        let q = point_at(&row, r, j);
        if !stands(t, q.a, q.b, q.m.0, n) {
            return false;
        }
    }
    true
}
