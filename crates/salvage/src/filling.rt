// The sorted records entered, and what they leave out restored: the reduced reader's work, from keys in the scratch table.
ghost use Rattle.std.specs.Prelude.{◌≡◌, true, ℕ, ◌+◌, ◌*◌, ◌≤◌, ◌<◌, length};
ghost use Rattle.lattice.specs.Records.{valid_of};
ghost use Rattle.lattice.specs.Refusals.{number_told};
ghost use Rattle.table.specs.Slots.{Table};
ghost use Rattle.sorting.specs.Sorting.{key_width, key_in};
ghost use Rattle.writers.specs.Kept.{record_for};
ghost use Rattle.readers.specs.Readers.{With, restore_star, restore_all};
ghost use Rattle.readers.specs.RestoreSteps.{restored_by};
ghost use Rattle.salvage.specs.Salvage.{entering, enter_all};
ghost use Rattle.salvage.specs.FillLaws.{records_of_keys};

use lattice::{Record, Refusal};
use readers::restore_star;
use sorting::key;
use table::{Found, enter};
use writers::unpack;

// Enters a record: 8 where no slot is free for it.
fn enter_record(table: &mut [u8], n: usize, r: Record) -> Result<(), Refusal>
    requires { Table table.old n }
    ensures { restored_by (number_told result) table.new ≡ entering (With table.old) r }
{
    match enter(table, r, n) {
        Found::At(_) => Ok(()),
        Found::Free(_) => Ok(()),
        Found::Full => Err(Refusal::NoRoom),
    }
}

// Enters the records of k keys, in their order.
pub fn enter_keys(table: &mut [u8], n: usize, keys: &[u8], k: usize) -> Result<(), Refusal>
    requires { Table table.old n × (key_width * k ≤ length keys.now) }
    ensures { restored_by (number_told result) table.new ≡ enter_all (records_of_keys keys.now k) (With table.old) }
{
    for i in 0..k {
        enter_record(table, n, unpack(key(keys, i)))?;
    }
    Ok(())
}

// Restores what a record leaves out: 11 or 8. Whether another record was there that should not be is not asked.
fn restore_record(table: &mut [u8], n: usize, v: Record) -> Result<(), Refusal>
    requires { Table table.old n × (valid_of v ≡ true) }
    ensures { restored_by (number_told result) table.new ≡ restore_star v (With table.old) }
{
    restore_star(table, &[0], n, v)?;
    Ok(())
}

// Restores what the records of k keys leave out, in their order. One function of both loops, with the step as a closure, would be no plainer: its promise
// would have to say what the step does to the table.
pub fn restore_keys(table: &mut [u8], n: usize, keys: &[u8], k: usize) -> Result<(), Refusal>
    requires table { Table table.old n × (key_width * k ≤ length keys.now) }
    requires by_index { (i : ℕ) → i < k → valid_of (record_for (key_in keys.now i)) ≡ true }
    ensures { restored_by (number_told result) table.new ≡ restore_all (records_of_keys keys.now k) (With table.old) }
{
    for i in 0..k {
        restore_record(table, n, unpack(key(keys, i)))?;
    }
    Ok(())
}
