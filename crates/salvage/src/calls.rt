// The call: a broken file mended, its full file and the list of changes written.
ghost use Rattle.std.specs.Prelude.{◌≡◌, ◌+◌, ◌<◌, ◌^◌, length};
ghost use Rattle.lattice.specs.Refusals.{number_told};
ghost use Rattle.table.specs.Slots.{slots_of, cleared_of};
ghost use Rattle.table.specs.Order.{InOrder};
ghost use Rattle.salvage_lines.specs.OldLines.{salvaged};
ghost use Rattle.salvage.specs.Salvage.{changes, salvage_after, salvage_of};
ghost use Rattle.salvage.specs.NoteLaws.{Capped};
ghost use Rattle.salvage.specs.ListLaws.{AllHeld};
ghost use Rattle.salvage.specs.CallLaws.{written_told, changed_told, both, both_of};

use crate::judging::judge;
use crate::listing::put_changes;
use lattice::Refusal;
use readers::prepare;
use table::{check_order, clear};
use writers::{MARK_BYTES, is_short, write_kept};

// The bytes of both outputs.
#[derive(Clone, Copy)]
pub struct Salvaged {
    pub written: u64,
    pub changed: u64,
}

// How long the list of changes is, up to the room.
fn measure(table: &[u8], n: usize, file: &[u8], room: usize) -> usize
    requires in_order { InOrder table.now × ((n ≡ slots_of table.now) × AllHeld table.now file.now) }
    requires room_bound { room + 1 < 2 ^ 64 }
    ensures { Capped room (length (changes (salvaged file.now) table.now)) result }
{
    let mut none = [0; 1];
    put_changes(table, n, file, &mut none, room)
}

// Writes both outputs of a mended table, where both have room.
fn write_both(
    table: &[u8],
    n: usize,
    file: &[u8],
    out: &mut [u8],
    list: &mut [u8],
) -> Result<Salvaged, Refusal>
    requires { InOrder table.now × ((n ≡ slots_of table.now) × AllHeld table.now file.now) }
    ensures { both (number_told result) (written_told result) (changed_told result) out.new list.new
        ≡ both_of table.now file.now out.old list.old }
{
    let free = check_order(table).unwrap(); // the table is in order
    let marks = [0; MARK_BYTES];
    if is_short(table, &marks, n, free, out.len()) {
        return Err(Refusal::Short);
    }
    let room = list.len();
    let total = measure(table, n, file, room);
    if room < total {
        return Err(Refusal::Short);
    }
    let written = write_kept(table, &marks, n, free, out)?;
    put_changes(table, n, file, list, room);
    Ok(Salvaged {
        written,
        changed: total as u64,
    })
}

// Refuses, past the length test: the table is cleared.
fn refuse(table: &mut [u8], why: Refusal) -> Result<Salvaged, Refusal>
    ensures { (result ≡ Err why) × (table.new ≡ cleared_of table.old) }
{
    clear(table);
    Err(why)
}

// Mends a broken file. Refused with 1 nothing is touched; else scratch ends all 255, and with 20, 8, 11 or 13 so does the table, and no output is touched.
pub fn salvage(
    table: &mut [u8],
    scratch: &mut [u8],
    file: &[u8],
    out: &mut [u8],
    list: &mut [u8],
) -> Result<Salvaged, Refusal>
    ensures { salvage_after (number_told result) (written_told result) (changed_told result) table.new scratch.new out.new list.new
        ≡ salvage_of table.old scratch.old file.now out.old list.old }
{
    let Some(n) = prepare(table, scratch) else {
        return Err(Refusal::NotInOrder);
    };
    let judged = judge(table, scratch, n, file);
    clear(scratch);
    if let Err(why) = judged {
        return refuse(table, why);
    }
    match write_both(table, n, file, out, list) {
        Ok(done) => Ok(done),
        Err(why) => refuse(table, why),
    }
}
