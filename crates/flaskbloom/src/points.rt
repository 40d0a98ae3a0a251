// The calls that give points: without any mesh, and of a vertex of one.
ghost use Rattle.std.specs.Prelude.{◌≡◌};
ghost use Rattle.lattice.specs.Points.{normal_of};
ghost use Rattle.lattice.specs.Stars.{star_of};
ghost use Rattle.queries.specs.Queries.{neighbours_of, faces_of};
ghost use Rattle.queries.specs.Many.{neighbours_all_of, faces_all_of};
ghost use Rattle.flaskbloom.specs.Numbers.{point_numbers, answer_numbers, record_of};

use crate::numbers::point_numbers;
use lattice::{ANSWER_NUMBERS, DONE, Depth, Level, Point, Record, number_told};

// The normalised point. Always 0.
#[unsafe(no_mangle)]
pub extern "C" fn fb_normalise(a: i32, b: i32, m: u8, point: &mut [i32; 3]) -> u8
    ensures value { result ≡ 0 }
    ensures point_after { point.new ≡ point_numbers (normal_of a b m) }
{
    *point = point_numbers(lattice::normalise(a, b, m));
    DONE
}

// The record of six fields, valid or not.
fn record_of(a: i32, b: i32, m: u8, d: u8, k: u8, n: u8) -> Record
    ensures { result ≡ record_of a b m d k n }
{
    let at = Point { a, b, m: Depth(m) };
    Record {
        at,
        d,
        k,
        n: Level(n),
    }
}

// The star of a record: 9 where it is not valid, 14 where its degree is 0.
#[unsafe(no_mangle)]
pub extern "C" fn fb_star(
    a: i32,
    b: i32,
    m: u8,
    d: u8,
    k: u8,
    n: u8,
    points: &mut [i32; ANSWER_NUMBERS],
) -> u8
    ensures value { result ≡ (star_of (record_of a b m d k n)).number }
    ensures points_after { points.new ≡ answer_numbers (star_of (record_of a b m d k n)) }
{
    number_told(lattice::star(points, record_of(a, b, m, d, k, n)))
}

// The adjacent points of the vertex at [a, b, m], or 1, 3, 14, 7.
#[unsafe(no_mangle)]
pub extern "C" fn fb_neighbours(
    table: &[u8],
    a: i32,
    b: i32,
    m: u8,
    points: &mut [i32; ANSWER_NUMBERS],
) -> u8
    ensures value { result ≡ (neighbours_of table.now a b m).number }
    ensures points_after { points.new ≡ answer_numbers (neighbours_of table.now a b m) }
{
    number_told(queries::neighbours(table, a, b, m, points))
}

// The opposite of each corner of the vertex at [a, b, m], or 1, 3, 14, 7.
#[unsafe(no_mangle)]
pub extern "C" fn fb_faces(
    table: &[u8],
    a: i32,
    b: i32,
    m: u8,
    points: &mut [i32; ANSWER_NUMBERS],
) -> u8
    ensures value { result ≡ (faces_of table.now a b m).number }
    ensures points_after { points.new ≡ answer_numbers (faces_of table.now a b m) }
{
    number_told(queries::faces(table, a, b, m, points))
}

// What fb_neighbours gives for each of the points a, b, m, a, b, m, .., or 1, 13.
#[unsafe(no_mangle)]
pub extern "C" fn fb_neighbours_all(table: &[u8], points: &[i32], answers: &mut [i32]) -> u8
    ensures value { result ≡ (neighbours_all_of table.now points.now answers.old).number }
    ensures answers_after { answers.new ≡ (neighbours_all_of table.now points.now answers.old).answers }
{
    number_told(queries::neighbours_all(table, points, answers))
}

// What fb_faces gives for each of the points a, b, m, a, b, m, .., or 1, 13.
#[unsafe(no_mangle)]
pub extern "C" fn fb_faces_all(table: &[u8], points: &[i32], answers: &mut [i32]) -> u8
    ensures value { result ≡ (faces_all_of table.now points.now answers.old).number }
    ensures answers_after { answers.new ≡ (faces_all_of table.now points.now answers.old).answers }
{
    number_told(queries::faces_all(table, points, answers))
}
