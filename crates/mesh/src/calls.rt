// The public calls.
ghost use Rattle.std.specs.Prelude.{◌≡◌, true, ◌+◌, ◌*◌, ◌≤◌, ◌<◌, length};
ghost use Rattle.lattice.specs.Refusals.{number_told, stop_number, stop_done};
ghost use Rattle.table.specs.Slots.{Table, free_slots};
ghost use Rattle.table.specs.Order.{in_order_of};
ghost use Rattle.table.specs.Entries.{look_up};
ghost use Rattle.mesh.specs.Subdivide.{subdivide_vertex, subdivide_looked, subdivide_of, subdivide_triple, subdivide_all_of};
ghost use Rattle.mesh.specs.WriteLaws.{Standing};
ghost use Rattle.mesh.specs.Met.{InSlot};

use crate::checks::{adjacents_fit, all_absent};
use crate::writes::divide;
use lattice::{ANSWER_NUMBERS, Point, Record, Refusal, Stopped, centre, normalise, ring};
use table::{Found, check_order, find, held_in, slots_of};

// The subdivision of the vertex v, which stands in slot i of a table in order, of whose slots so many are free: refused by 4, 5, 7, 8 in this order.
pub fn subdivide_vertex(
    t: &mut [u8],
    v: Record,
    i: usize,
    n: usize,
    free: usize,
) -> Result<(), Refusal>
    requires { Table t.old n × (Standing t.old v × (InSlot t.old v i × (free ≡ free_slots t.old))) }
    ensures value { number_told result ≡ (subdivide_vertex t.old v).number }
    ensures t_after { t.new ≡ (subdivide_vertex t.old v).bytes }
{
    let d = v.d;
    let level = v.n.0;
    if d != 6 {
        return Err(Refusal::NotSix);
    }
    if level == 12 {
        return Err(Refusal::LastLevel);
    }
    let mut old = [0; ANSWER_NUMBERS];
    ring(&mut old, v);
    let Some(stand) = adjacents_fit(t, v, &old, n) else {
        return Err(Refusal::Torn);
    };
    let c = centre(v);
    let mut new = [0; ANSWER_NUMBERS];
    ring(&mut new, c);
    let Some(told) = all_absent(t, c, &new, n) else {
        return Err(Refusal::Torn);
    };
    if free < 6 {
        return Err(Refusal::NoRoom);
    }
    divide(t, v, i, &stand, &new, &told, n);
    Ok(())
}

// The subdivision of what stands at a point of a table in order, of whose slots so many are free.
pub fn subdivide_at(t: &mut [u8], p: Point, n: usize, free: usize) -> Result<(), Refusal>
    requires { Table t.old n × ((in_order_of t.old ≡ true) × (free ≡ free_slots t.old)) }
    ensures value { number_told result ≡ (subdivide_looked t.old (look_up t.old p)).number }
    ensures t_after { t.new ≡ (subdivide_looked t.old (look_up t.old p)).bytes }
{
    let Found::At(i) = find(t, p, n) else {
        return Err(Refusal::NoRecord);
    };
    let Some(v) = held_in(t, i) else {
        return Err(Refusal::NoRecord);
    };
    subdivide_vertex(t, v, i, n, free)
}

// The same at a point as a request gives it.
fn subdivide_ordered(
    t: &mut [u8],
    a: i32,
    b: i32,
    m: u8,
    n: usize,
    free: usize,
) -> Result<(), Refusal>
    requires { Table t.old n × ((in_order_of t.old ≡ true) × (free ≡ free_slots t.old)) }
    ensures value { number_told result ≡ (subdivide_of t.old a b m).number }
    ensures t_after { t.new ≡ (subdivide_of t.old a b m).bytes }
{
    subdivide_at(t, normalise(a, b, m), n, free)
}

// Subdivides the vertex at a point, whatever its spelling, or refuses by document 01's numbers 1, 3, 4, 5, 7, 8, with no byte changed.
pub fn subdivide(table: &mut [u8], a: i32, b: i32, m: u8) -> Result<(), Refusal>
    ensures value { number_told result ≡ (subdivide_of table.old a b m).number }
    ensures table_after { table.new ≡ (subdivide_of table.old a b m).bytes }
{
    let Some(free) = check_order(table) else {
        return Err(Refusal::NotInOrder);
    };
    let n = slots_of(table);
    subdivide_ordered(table, a, b, m, n, free)
}

// Triple i of a list, subdivided as `subdivide` would.
fn subdivide_triple(
    t: &mut [u8],
    points: &[i32],
    i: usize,
    n: usize,
    free: usize,
) -> Result<(), Refusal>
    requires { (3 * i + 3 ≤ length points.now) × (Table t.old n × ((in_order_of t.old ≡ true) × (free ≡ free_slots t.old))) }
    ensures value { number_told result ≡ (subdivide_triple t.old points.now i).number }
    ensures t_after { t.new ≡ (subdivide_triple t.old points.now i).bytes }
{
    let a = points[3 * i];
    let b = points[3 * i + 1];
    let Ok(m) = u8::try_from(points[3 * i + 2]) else {
        return Err(Refusal::NoRecord);
    };
    subdivide_ordered(t, a, b, m, n, free)
}

// Subdivides the points a, b, m, a, b, m, .. in turn, as `subdivide` would, with one test of the table, and says how many. The first refusal ends it;
// those before it stand. Numbers past the last whole triple are not read.
pub fn subdivide_all(table: &mut [u8], points: &[i32]) -> Result<u64, Stopped>
    ensures number_value { stop_number result ≡ (subdivide_all_of table.old points.now).number }
    ensures done_value { stop_done result ≡ (subdivide_all_of table.old points.now).done }
    ensures table_after { table.new ≡ (subdivide_all_of table.old points.now).bytes }
{
    let Some(mut free) = check_order(table) else {
        return Err(Stopped {
            why: Refusal::NotInOrder,
            done: 0,
        });
    };
    let n = slots_of(table);
    let count = points.len() / 3;
    for i in 0..count {
        if let Err(why) = subdivide_triple(table, points, i, n, free) {
            let done = i as u64;
            return Err(Stopped { why, done });
        }
        free -= 6;
    }
    Ok(count as u64)
}
