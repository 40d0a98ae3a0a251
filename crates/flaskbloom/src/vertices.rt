// The calls without any table: records from a base and the list of what was subdivided.
ghost use Rattle.std.specs.Prelude.{◌≡◌};
ghost use Rattle.engine.specs.Engine.{vertex_of};
ghost use Rattle.engine.specs.Many.{record_row, vertices_of};

use crate::numbers::record_numbers;
use lattice::{DONE, number_told};

// The record of the vertex at [a, b, m], or 2, 21, 3 and all zeros.
#[unsafe(no_mangle)]
pub extern "C" fn fb_vertex(
    centres: &[i32],
    pairs: &[i32],
    a: i32,
    b: i32,
    m: u8,
    record: &mut [i32; 6],
) -> u8
    ensures value { result ≡ (vertex_of centres.now pairs.now a b m).number }
    ensures record_after { «record».new ≡ record_row (vertex_of centres.now pairs.now a b m).vertex }
{
    match engine::vertex(centres, pairs, a, b, m) {
        Ok(v) => {
            *record = record_numbers(v);
            DONE
        }
        Err(why) => {
            *record = [0; 6];
            why.number()
        }
    }
}

// The records at many points, six numbers each, with one judgement of the lists, or 2, 21, 13.
#[unsafe(no_mangle)]
pub extern "C" fn fb_vertices(
    centres: &[i32],
    pairs: &[i32],
    points: &[i32],
    records: &mut [i32],
) -> u8
    ensures value { result ≡ (vertices_of centres.now pairs.now points.now records.old).number }
    ensures records_after { records.new ≡ (vertices_of centres.now pairs.now points.now records.old).rows }
{
    number_told(engine::vertices(centres, pairs, points, records))
}
