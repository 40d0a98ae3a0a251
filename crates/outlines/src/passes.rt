// A pass: its list subdivided in turn, or, where one is refused, undone whole, from the last made back; and the passes.
ghost use Rattle.std.specs.Prelude.{◌≡◌, List, ℕ, ◌*◌, ◌≤◌, length};
ghost use Rattle.lattice.specs.Refusals.{stop_number, stop_done};
ghost use Rattle.table.specs.Slots.{Table};
ghost use Rattle.sorting.specs.Sorting.{key_width};
ghost use Rattle.mesh.specs.Subdivide.{all_or};
ghost use Rattle.mesh.specs.StepLaws.{Given, Leaves};
ghost use Rattle.outlines.specs.Outlines.{pass_of, passes_from};
ghost use Rattle.outlines.specs.PassLaws.{made_from, LastMade, Steps};
ghost use Rattle.outlines.specs.CallLaws.{PassLeaves, PassesLeave};

use crate::listing::put_sorted;
use crate::values::Outline;
use lattice::{Point, Refusal, Stopped};
use mesh::subdivide_at;
use sorting::key;
use table::look_up;
use text::ordered;
use undoing::undo_at;

// The subdivision at p, which was the last change made to the table, is undone.
fn undo_last(t: &mut [u8], p: Point, n: usize)
    requires { Table t.old n × ((u : List ℕ) × LastMade p t.old u) }
    ensures { (u : List ℕ) → LastMade p t.old u → t.new ≡ u }
{
    if let Some(c) = look_up(t, p, n) {
        undo_at(t, c, n);
    }
}

// The subdivisions at the points of the first i keys, the last changes made to the table, are undone.
fn undo_all(t: &mut [u8], keys: &[u8], i: usize, n: usize)
    requires table { Table t.old n × (key_width * i ≤ length keys.now) }
    requires by_index { (u : List ℕ) × Steps keys.now u i t.old }
    ensures { (u : List ℕ) → Steps keys.now u i t.old → t.new ≡ u }
{
    for left in (0..i).rev() {
        undo_last(t, ordered(key(keys, left)), n);
    }
}

// The points of k keys subdivided in turn, or none of them: how many slots are free after.
fn make_all(t: &mut [u8], keys: &[u8], k: usize, n: usize, free: usize) -> Result<usize, Refusal>
    requires { Given t.old n free × (key_width * k ≤ length keys.now) }
    ensures { Leaves t.old (all_or t.old (made_from t.old keys.now 0 k)) result t.new }
{
    let mut left = free;
    for i in 0..k {
        if let Err(why) = subdivide_at(t, ordered(key(keys, i)), n, left) {
            undo_all(t, keys, i, n);
            return Err(why);
        }
        left -= 6;
    }
    Ok(left)
}

// "One pass lists, in full-file order, the degree 6 vertices below a given level with a crossing edge, and then subdivides them all": the list stands in
// scratch.
fn pass(
    table: &mut [u8],
    scratch: &mut [u8],
    o: Outline,
    level: u8,
    n: usize,
    free: usize,
) -> Result<usize, Refusal>
    requires { Given table.old n free × (length scratch.old ≡ length table.old) }
    ensures { PassLeaves table.old (pass_of o level table.old) scratch.old result table.new scratch.new }
{
    let k = put_sorted(table, o, level, n, scratch);
    make_all(table, scratch, k, n, free)
}

// So many passes, until one is refused: how many were made.
pub fn make_passes(
    table: &mut [u8],
    scratch: &mut [u8],
    o: Outline,
    count: u8,
    level: u8,
    n: usize,
    free: usize,
) -> Result<u64, Stopped>
    requires { Given table.old n free × (length scratch.old ≡ length table.old) }
    ensures { PassesLeave (passes_from o level table.old 0 count) scratch.old
        (stop_number result) (stop_done result) table.new scratch.new }
{
    let mut left = free;
    for i in 0..count {
        left = match pass(table, scratch, o, level, n, left) {
            Ok(after) => after,
            Err(why) => {
                let done = i as u64;
                return Err(Stopped { why, done });
            }
        };
    }
    Ok(count as u64)
}
