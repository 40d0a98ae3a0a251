// Hexagons laid over the blade: document 01, "Base".
//
// One public call answers every input: `base`. Its promise cites `base_of` of specs/Base; what follows from it, for whoever stands above, is specs/BaseLaws.
// The list is judged first, by crate centres, which leaves a mark for each hexagon that is listed.
#![tactic(auto)]

mod hexagons;

ghost use Rattle.std.specs.Prelude.{◌≡◌};
ghost use Rattle.lattice.specs.Refusals.{number_of};
ghost use Rattle.base.specs.Base.{base_after, base_of};
ghost use Rattle.base.specs.Told.{base_number, base_place};

use crate::hexagons::lay_all;
use centres::{MARK_BYTES, first_bad};
use lattice::Refusal;
use table::{clear, slots_of};

// Why a base is refused, and the place of the first bad centre, else 0.
#[derive(Clone, Copy, PartialEq, Eq)]
pub struct BadBase {
    pub why: Refusal,
    pub place: usize,
}

fn refuse(why: Refusal, place: usize) -> Result<(), BadBase>
    ensures { (base_number result ≡ number_of why) × (base_place result ≡ place) }
{
    Err(BadBase { why, place })
}

// Clears the table and lays the hexagons at the centres a, b, a, b, .. into it. Refused with 1 the table is untouched, with 2 or 8 all 255.
// Linear in the table's slots and in the list, as long as the searches are short.
pub fn base(table: &mut [u8], centres: &[i32]) -> Result<(), BadBase>
    ensures { base_after (base_number result) (base_place result) table.new ≡ base_of table.old centres.now }
{
    let n = slots_of(table);
    if n == 0 {
        return refuse(Refusal::NotInOrder, 0);
    }
    clear(table);
    let l = centres.len();
    if l == 0 {
        return refuse(Refusal::BadList, 0);
    }
    if l % 2 != 0 {
        return refuse(Refusal::BadList, 0);
    }
    let mut marks = [0; MARK_BYTES];
    let bad = first_bad(centres, l / 2, &mut marks);
    if bad < l / 2 {
        return refuse(Refusal::BadList, bad);
    }
    if lay_all(table, n, centres, &marks) {
        return Ok(());
    }
    clear(table);
    refuse(Refusal::NoRoom, 0)
}
