// A point and a record as the C interface gives them: numbers in a row.
ghost use Rattle.std.specs.Prelude.{◌≡◌};
ghost use Rattle.engine.specs.Many.{record_row};
ghost use Rattle.flaskbloom.specs.Numbers.{point_numbers};

use lattice::{Point, Record};

// A point: a, b, m.
pub fn point_numbers(p: Point) -> [i32; 3]
    ensures { result ≡ point_numbers p }
{
    let m = p.m.0;
    [p.a, p.b, m as i32]
}

// A record: a, b, m, d, k, n.
pub fn record_numbers(r: Record) -> [i32; 6]
    ensures { result ≡ record_row r }
{
    let m = r.at.m.0;
    let d = r.d;
    let k = r.k;
    let n = r.n.0;
    [r.at.a, r.at.b, m as i32, d as i32, k as i32, n as i32]
}
