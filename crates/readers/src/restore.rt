// What a reduced file leaves out: the absent adjacent points of its degree 6 records, entered. One search for each point enters it, or finds a record;
// whether that stood before, and should have been left out, the table as the lines left it tells by the slot: `before`. Whoever does not ask that lends
// other bytes.
ghost use Rattle.std.specs.Prelude.{◌≡◌, true, ◌+◌, ◌*◌, ◌≤◌, length};
ghost use Rattle.laws.specs.Some.{some_of};
ghost use Rattle.lattice.specs.Records.{valid_of};
ghost use Rattle.lattice.specs.Refusals.{number_told};
ghost use Rattle.table.specs.Entries.{held_in, look_up};
ghost use Rattle.table.specs.Order.{InOrder};
ghost use Rattle.table.specs.Slots.{slot_width, Table, slots_of, slot_at, cleared_of};
ghost use Rattle.readers.specs.Readers.{With, restore, restore_to, restore_star, restore_all};
ghost use Rattle.readers.specs.Keeps.{is_three, star_keeps, record_keeps, Since};
ghost use Rattle.readers.specs.RestoreSteps.{kept_told, Mends, file_records};

use lattice::{Record, Refusal, born, valid};
use table::{Found, clear, copy, find, held_in, write_slot};
use text::{Line, parse_line};

// Slot i of a table of so many bytes held a record of degree 3.
fn was_three(before: &[u8], bytes: usize, i: usize) -> bool
    requires { slot_width * i + slot_width ≤ bytes }
    ensures { bytes ≡ length before.now → result ≡ is_three (held_in (slot_at before.now i)) }
{
    if before.len() != bytes {
        return false;
    }
    let l = held_in(before, i);
    match l {
        None => false,
        Some(u) => u.d == 3,
    }
}

// Enters a record where its point is absent: 11 where it is not valid, else 8 where no slot is free; else whether the record found is one of the file's of
// degree 3, as it is where its slot was taken before.
fn restore_record(table: &mut [u8], before: &[u8], n: usize, r: Record) -> Result<bool, Refusal>
    requires { Table table.old n }
    ensures { Mends before.now table.old (restore (With table.old) r) (is_three (look_up before.now r.at))
        (number_told result) (kept_told result) table.new }
{
    match find(table, r.at, n) {
        Found::At(i) => Ok(was_three(before, table.len(), i)),
        Found::Free(i) => {
            if !valid(r) {
                return Err(Refusal::NotGrown);
            }
            write_slot(table, i, r);
            Ok(false)
        }
        Found::Full => {
            if !valid(r) {
                return Err(Refusal::NotGrown);
            }
            Err(Refusal::NoRoom)
        }
    }
}

// All six of v's adjacent points, in star order, up to the first refusal: whether one is kept that should have been left out.
fn restore_round(table: &mut [u8], before: &[u8], n: usize, v: Record) -> Result<bool, Refusal>
    requires { Table table.old n × ((valid_of v ≡ true) × (v.d ≡ 6)) }
    ensures { Mends before.now table.old (restore_to v 6 (With table.old)) (star_keeps before.now v 6)
        (number_told result) (kept_told result) table.new }
{
    let mut kept = false;
    for j in 0..6 {
        kept |= restore_record(table, before, n, born(v, j))?;
    }
    Ok(kept)
}

// The same where v has degree 6; else nothing.
pub fn restore_star(table: &mut [u8], before: &[u8], n: usize, v: Record) -> Result<bool, Refusal>
    requires { Table table.old n × (valid_of v ≡ true) }
    ensures { Mends before.now table.old (restore_star v (With table.old)) (record_keeps before.now v)
        (number_told result) (kept_told result) table.new }
{
    if v.d != 6 {
        return Ok(false);
    }
    restore_round(table, before, n, v)
}

// The same of the records of a file, in its order.
fn restore_all(table: &mut [u8], before: &[u8], n: usize, file: &[u8]) -> Result<bool, Refusal>
    requires { Table table.old n × Since before.now table.old }
    ensures { Mends before.now table.old (restore_all (file_records file.now) (With table.old))
        (some_of (record_keeps before.now) (file_records file.now)) (number_told result) (kept_told result) table.new }
{
    let mut kept = false;
    let mut at = 0;
    while let Line::Good(v, next) = parse_line(file, at) {
        kept |= restore_star(table, before, n, v)?;
        at = next;
    }
    Ok(kept)
}

// The same with the table as the lines left it in scratch meanwhile.
pub fn restore_file(
    table: &mut [u8],
    scratch: &mut [u8],
    n: usize,
    file: &[u8],
) -> Result<bool, Refusal>
    requires { (length scratch.old ≡ length table.old) × (InOrder table.old × (n ≡ slots_of table.old)) }
    ensures mends { Mends table.old table.old (restore_all (file_records file.now) (With table.old))
        (some_of (record_keeps table.old) (file_records file.now)) (number_told result) (kept_told result) table.new }
    ensures scratch_after { scratch.new ≡ cleared_of scratch.old }
{
    copy(table, scratch);
    let kept = restore_all(table, scratch, n, file);
    clear(scratch);
    kept
}
