// The lines of the joined list: the lost ones laid in list order, with a key for each finding on the plan; then the lines of the keys, from the last
// back. The keys stand at the output's beginning, eight bytes each under lines of nine or more, so no line meets the keys that are left.
ghost use Rattle.std.specs.Prelude.{◌≡◌, true, false, List, ◌++◌, ◌+◌, ◌*◌, ◌≤◌, length, drop};
ghost use Rattle.laws.specs.Stores.{Wrote};
ghost use Rattle.table.specs.Slots.{slots_of};
ghost use Rattle.table.specs.Order.{InOrder};
ghost use Rattle.table.specs.Entries.{holds};
ghost use Rattle.sorting.specs.Sorting.{key_width};
ghost use Rattle.findings.specs.Findings.{point_of, stands_text, lost_text, texts, entry_at};
ghost use Rattle.findings.specs.EntryLaws.{InList};
ghost use Rattle.findings.specs.Judged.{found, AllSound, parts_of};
ghost use Rattle.findings.specs.Ranks.{place_of};
ghost use Rattle.findings.specs.Laying.{Lays, Laid, Ready};
ghost use Rattle.findings.specs.declared.line.Finding.{Finding};
ghost use Rattle.findings.specs.declared.line.Entry.TheVariants.{Good};

use crate::keys::{key_of, place_of};
use crate::line::{Entry, Finding, entry_at};
use crate::texts::{lost_length, point_of, write_lost, write_stands};
use sorting::{key, put_key};
use table::is_there;

// How many keys are laid, and where the lost lines end.
#[derive(Clone, Copy)]
pub struct Ends {
    pub keys: usize,
    pub lost: usize,
}

// Lays a finding: its key after the keys, or its line after the lost lines.
fn lay_one(table: &[u8], n: usize, list: &[u8], f: Finding, out: &mut [u8], ends: Ends) -> Ends
    requires in_order { InOrder table.now × ((n ≡ slots_of table.now) × InList list.now f) }
    requires key_width_in_bounds { holds table.now (point_of f) ≡ true → key_width * ends.keys + key_width ≤ length out.old }
    requires f_in_bounds { holds table.now (point_of f) ≡ false → ends.lost + length (lost_text list.now f) ≤ length out.old }
    ensures { Lays (holds table.now (point_of f)) list.now f out.old ends.keys ends.lost
        out.new result.keys result.lost }
{
    if is_there(table, point_of(f), n) {
        put_key(out, ends.keys, key_of(list, f));
        Ends {
            keys: ends.keys + 1,
            ..ends
        }
    } else {
        let lost = ends.lost + lost_length(f);
        write_lost(out, lost, list, f);
        Ends { lost, ..ends }
    }
}

// Lays all findings of a list without malformed lines, the lost ones from `start` on, and gives how many keys there are.
pub fn lay(table: &[u8], n: usize, list: &[u8], out: &mut [u8], start: usize) -> usize
    requires in_order { InOrder table.now × ((n ≡ slots_of table.now) × AllSound list.now) }
    requires start_value { (start ≡ (parts_of table.now list.now (found list.now)).stands)
        × (start + (parts_of table.now list.now (found list.now)).lost ≤ length out.old) }
    ensures { Laid table.now list.now start (found list.now) out.old out.new result }
{
    let mut at = 0;
    let mut ends = Ends {
        keys: 0,
        lost: start,
    };
    while let Entry::Good(f) = entry_at(list, at) {
        ends = lay_one(table, n, list, f, out, ends);
        at = f.next;
    }
    ends.keys
}

// Writes the line of a key before a position, and gives the position where it begins.
fn write_key(list: &[u8], out: &mut [u8], end: usize, v: u64) -> usize
    requires end_in_bounds { end ≤ length out.old }
    requires f_len_bound { (f : Finding) → entry_at list.now (place_of list.now v) ≡ Good f → length (stands_text list.now f) ≤ end }
    ensures { (f : Finding) → entry_at list.now (place_of list.now v) ≡ Good f
        → Wrote out.old result (stands_text list.now f) out.new end }
{
    if let Entry::Good(f) = entry_at(list, place_of(list, v)) {
        write_stands(out, end, list, f)
    } else {
        end
    }
}

// Writes the lines of k keys, which are sorted; total is how long the lines are.
pub fn write_keys(list: &[u8], out: &mut [u8], k: usize, total: usize)
    requires { (fs : List Finding) × Ready list.now fs out.old k total }
    ensures { (fs : List Finding) → Ready list.now fs out.old k total
        → out.new ≡ texts (stands_text list.now) fs ++ drop total out.old }
{
    let mut at = total;
    for i in (0..k).rev() {
        let v = key(out, i);
        at = write_key(list, out, at, v);
    }
}
