// The numbers of any bytes, ours: a census of a table in memory, with no file and no bound on one.
ghost use Rattle.std.specs.Prelude.{◌≡◌};
ghost use Rattle.lattice.specs.Refusals.{number_told};
ghost use Rattle.tally.specs.Count.{count_of, row_told};

use crate::surveyed;
use counts::Counts;
use lattice::Refusal;
use table::{in_order, slots_of};

// V, E, F, and the five degrees.
pub const COUNTS: usize = 8;

// The numbers of a table, or 1 where it is not in order.
pub fn count(table: &[u8]) -> Result<Counts, Refusal>
    ensures value { number_told result ≡ (count_of table.now).number }
    ensures row { row_told result ≡ (count_of table.now).counted }
{
    if !in_order(table) {
        return Err(Refusal::NotInOrder);
    }
    let counts = surveyed(table, slots_of(table)).counts;
    Ok(counts)
}

// The numbers in the census's order, all zeros where the table is refused.
pub fn row(counted: Result<Counts, Refusal>) -> [u32; COUNTS]
    ensures { result ≡ row_told counted }
{
    match counted {
        Ok(c) => [c.vertices, c.edges, c.faces, c.d0, c.d3, c.d4, c.d5, c.d6],
        Err(_) => [0; COUNTS],
    }
}
