// A pass's list: the degree 6 vertices below a level with a crossing edge, as keys in lent bytes, sorted by the order of lines.
ghost use Rattle.std.specs.Prelude.{◌≡◌, true, map, ◌+◌, ◌*◌, ◌≤◌, ◌<◌, length};
ghost use Rattle.laws.specs.Rules.{among};
ghost use Rattle.lattice.specs.Records.{valid_of};
ghost use Rattle.table.specs.Slots.{slots_of};
ghost use Rattle.table.specs.Order.{InOrder};
ghost use Rattle.table.specs.Entries.{listed};
ghost use Rattle.sorting.specs.Sorting.{key_width};
ghost use Rattle.writers.specs.Kept.{standing, Added};
ghost use Rattle.writers.specs.KeptLaws.{Filled};
ghost use Rattle.outlines.specs.Outlines.{crosses_at, wanted, list_of};
ghost use Rattle.outlines.specs.ListLaws.{point_key, wanted_at, ListedIn};

use crate::values::{Outline, is_below};
use lattice::{Record, adjacent_of};
use sorting::{put_key, sort};
use table::read_slot;
use text::order;

// "a crossing edge", of the six of a vertex of degree 6.
fn crosses(o: Outline, v: Record) -> bool
    requires { (valid_of v ≡ true) × (v.d ≡ 6) }
    ensures { result ≡ among 6 (crosses_at o v) }
{
    let here = is_below(o, v.at);
    for j in 0..6 {
        let there = is_below(o, adjacent_of(v, j));
        if here != there {
            return true;
        }
    }
    false
}

// Whether a vertex is listed.
fn is_wanted(o: Outline, level: u8, v: Record) -> bool
    requires { valid_of v ≡ true }
    ensures { result ≡ wanted o level v }
{
    let d = v.d;
    let n = v.n.0;
    if d != 6 {
        return false;
    }
    if level <= n {
        return false;
    }
    crosses(o, v)
}

// Stores the key of the vertex in slot i as key k, if it is listed, and counts it.
fn put_wanted(table: &[u8], o: Outline, level: u8, i: usize, out: &mut [u8], k: usize) -> usize
    requires in_order { InOrder table.now × (i < slots_of table.now) }
    requires key_width_in_bounds { key_width * k + key_width ≤ length out.old }
    ensures { Added out.old k (map point_key (listed (wanted_at o level table.now i))) out.new result }
{
    let s = read_slot(table, i);
    match s {
        None => k,
        Some(v) => {
            if is_wanted(o, level, v) {
                put_key(out, k, order(v.at));
                return k + 1;
            }
            k
        }
    }
}

// Stores the keys of all listed vertices, in the order of their slots, and counts them.
fn put_list(table: &[u8], o: Outline, level: u8, n: usize, out: &mut [u8]) -> usize
    requires in_order { InOrder table.now × (n ≡ slots_of table.now) }
    requires out_len { length out.old ≡ length table.now }
    ensures { Filled out.old (map point_key (standing (wanted_at o level table.now) n)) out.new result }
{
    let mut k = 0;
    for i in 0..n {
        k = put_wanted(table, o, level, i, out, k);
    }
    k
}

// The list, in full-file order.
pub fn put_sorted(table: &[u8], o: Outline, level: u8, n: usize, out: &mut [u8]) -> usize
    requires in_order { InOrder table.now × (n ≡ slots_of table.now) }
    requires out_len { length out.old ≡ length table.now }
    ensures { ListedIn out.old (list_of o level table.now) out.new result }
{
    let k = put_list(table, o, level, n, out);
    sort(out, k);
    k
}
