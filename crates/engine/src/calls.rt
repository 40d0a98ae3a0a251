// The calls: document 02, ticket 13.
ghost use Rattle.std.specs.Prelude.{◌≡◌};
ghost use Rattle.engine.specs.Engine.{vertex_of};
ghost use Rattle.engine.specs.Scan.{vertex_told};

use crate::judge::judge;
use crate::records::record_at;
use centres::MARK_BYTES;
use lattice::{Record, Refusal, normalise};

// The record of the vertex at a point, from a base and the list of what was subdivided, a, b, m, level, a, b, m, level, .., in the order made: 2, 21, 3.
// Linear in the list of centres; a scan of the earlier pairs for each pair, one scan more for the record. No table.
pub fn vertex(centres: &[i32], pairs: &[i32], a: i32, b: i32, m: u8) -> Result<Record, Refusal>
    ensures { vertex_told result ≡ vertex_of centres.now pairs.now a b m }
{
    let mut marks = [0; MARK_BYTES];
    judge(centres, pairs, &mut marks)?;
    let Some(r) = record_at(&marks, pairs, pairs.len() / 4, normalise(a, b, m)) else {
        return Err(Refusal::NoRecord);
    };
    Ok(r)
}
