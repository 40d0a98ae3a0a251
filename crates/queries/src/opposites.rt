// Which points of a star are in the table: its adjacent points, and the opposites of its corners.
ghost use Rattle.std.specs.Prelude.{◌≡◌, ◌<◌};
ghost use Rattle.lattice.specs.RecordLaws.{Inner};
ghost use Rattle.lattice.specs.Stars.{given};
ghost use Rattle.table.specs.Slots.{Table};
ghost use Rattle.lattice.specs.Terms.{Light};
ghost use Rattle.queries.specs.Asked.{chosen_by};
ghost use Rattle.queries.specs.Queries.{adjacents_there, there, chosen_at};
ghost use Rattle.lattice.specs.AnswerRows.{answer_numbers};

use lattice::{ANSWER_NUMBERS, Point, Record, Terms, added, first_of, point_at, second_of};
use table::is_there;

// Each adjacent point of v is in the table: the row has them.
pub fn adjacents_there(t: &[u8], row: &[i32; ANSWER_NUMBERS], v: Record, n: usize) -> bool
    requires table { Table t.now n }
    requires inner { Inner v }
    requires row_value { row.now ≡ answer_numbers (given v) }
    ensures { result ≡ adjacents_there t.now v }
{
    for j in 0..v.d {
        if !is_there(t, point_at(row, v, j), n) {
            return false;
        }
    }
    true
}

// A point, if there is one and it is in the table.
fn kept(t: &[u8], s: Option<Point>, n: usize) -> Option<Point>
    requires { Table t.now n }
    ensures { result ≡ there t.now s }
{
    match s {
        Some(p) => { if is_there(t, p, n) { Some(p) } else { None } }
        None => None,
    }
}

// The opposite of corner j: the first one if that is in the table, else the second if that is; a corner may have none.
#[tactic(auto, unfolding(crate::specs::Queries::chosen_at))]
pub fn chosen(t: &[u8], v: Record, j: u8, n: usize) -> Option<Point>
    requires table { Table t.now n }
    requires inner { Inner v × (j < v.d) }
    ensures { result ≡ chosen_at t.now v j }
{
    let first = first_of(v, j);
    if is_there(t, first, n) {
        return Some(first);
    }
    kept(t, second_of(v, j), n)
}

// The same by the arms to the two, each added up only where it is asked for.
pub fn opposite_by(t: &[u8], near: Terms, far: Terms, n: usize) -> Option<Point>
    requires table { Table t.now n }
    requires light { Light near × Light far }
    ensures { result ≡ chosen_by t.now near far }
{
    let p = added(near);
    if is_there(t, p, n) {
        return Some(p);
    }
    kept(t, Some(added(far)), n)
}
