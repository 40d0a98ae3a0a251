// Searches in a row, so that outside/bench can time them: no call of the C interface searches alone.
//
// One call answers every input: `fb_lookups`. Its promise cites specs/Lookups.
#![tactic(auto)]

ghost use Rattle.std.specs.Prelude.{◌≡◌, ◌+◌, ◌*◌, ◌<◌, length};
ghost use Rattle.table.specs.Slots.{Table};
ghost use Rattle.table.specs.Entries.{holds};
ghost use Rattle.lookups.specs.Lookups.{one, point_at, lookups_of};

use lattice::{Depth, Point};
use table::{is_there, slots_of};

// Point i of a list of points of depth m.
fn point_at(points: &[i32], m: u8, i: usize) -> Point
    requires { 2 * i + 1 < length points.now }
    ensures { result ≡ point_at points.now m i }
{
    let a = points[2 * i];
    let b = points[2 * i + 1];
    Point { a, b, m: Depth(m) }
}

// How many of the points a, b, a, b, .. of depth m, normalised, the table holds; 0 where its length is no table's.
#[unsafe(no_mangle)]
pub extern "C" fn fb_lookups(table: &[u8], points: &[i32], m: u8) -> u64
    ensures { result ≡ lookups_of table.now points.now m }
{
    let n = slots_of(table);
    if n == 0 {
        return 0;
    }
    let mut found = 0;
    for i in 0..points.len() / 2 {
        found += u64::from(is_there(table, point_at(points, m, i), n));
    }
    found
}
