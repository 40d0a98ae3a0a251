// Whether a table is in order.
ghost use Rattle.std.specs.Prelude.{◌≡◌, true, false, ◌<◌, MatchOption};
ghost use Rattle.table.specs.Slots.{Table, slot_at, free_slots};
ghost use Rattle.table.specs.Reading.{run_on, run_before};
ghost use Rattle.table.specs.Search.{home_of, meets, find_of};
ghost use Rattle.table.specs.Told.{Reaches};
ghost use Rattle.table.specs.declared.probe.Meet.TheVariants.{Hit};
ghost use Rattle.table.specs.Order.{is_at, placed_at, all_placed, in_order_of};

use crate::groups::{GROUP, guess_in_group};
use crate::home::home;
use crate::probe::{Found, find_from};
use crate::slots::{one_if_free, read_slot, slots_of};
use lattice::{Point, valid};

// The search ended at slot i.
fn is_at(f: Found, i: usize) -> bool
    ensures { result ≡ is_at f i }
{
    matches!(f, Found::At(j) if j == i)
}

// How many slots in a row are taken, one slot more seen: none where it is free.
fn run_on(run: usize, free: usize) -> usize
    requires { run < 65536 }
    ensures { result ≡ run_on run free }
{
    if free == 0 { run + 1 } else { 0 }
}

// A group tells that the search for p, from its home h on, comes to slot i: the slots between are taken, and none of the group before slot i is p's.
fn group_reaches(t: &[u8], p: Point, h: usize, i: usize, n: usize, run: usize) -> bool
    requires table { Table t.now n × (i < n) }
    requires h_value { (h ≡ home_of p n) × (h < n) }
    requires run_value { run ≡ run_before (slot_at t.now) i }
    ensures { result ≡ true → Reaches t.now p i }
{
    if (h <= i) & (i <= h + run) & (i <= h + GROUP) & (GROUP <= i) {
        guess_in_group(t, p.a, p.b, i - GROUP) == i
    } else {
        false
    }
}

// The search for p ends at slot i, which holds it: where that is its home, nothing has to be looked at; where it is near, a group.
fn found_at(t: &[u8], p: Point, i: usize, n: usize, run: usize) -> bool
    requires table { Table t.now n × (i < n) }
    requires p_value { meets (slot_at t.now i) p ≡ Hit }
    requires run_value { run ≡ run_before (slot_at t.now) i }
    ensures { result ≡ is_at (find_of t.now p) i }
{
    let h = home(p, n);
    if h == i {
        return true;
    }
    group_reaches(t, p, h, i, n, run) || is_at(find_from(t, p, h, n), i)
}

// Slot i is free, or holds a valid record that the search for its point finds there.
fn placed(t: &[u8], i: usize, n: usize, run: usize) -> bool
    requires table { Table t.now n × (i < n) }
    requires run_value { run ≡ run_before (slot_at t.now) i }
    ensures { result ≡ placed_at t.now i }
{
    match read_slot(t, i) {
        None => true,
        Some(r) => valid(r) && found_at(t, r.at, i, n, run),
    }
}

// How many slots are free in a table of n slots, where all are placed.
fn free_placed(t: &[u8], n: usize) -> Option<usize>
    requires { Table t.now n }
    ensures { MatchOption result (all_placed t.now n ≡ false) (λ f. (all_placed t.now n ≡ true) × (f ≡ free_slots t.now)) }
{
    let mut free = 0;
    let mut run = 0;
    for i in 0..n {
        if !placed(t, i, n, run) {
            return None;
        }
        let one = one_if_free(t, i);
        free += one;
        run = run_on(run, one);
    }
    Some(free)
}

// How many slots are free, where any bytes are a table in order; else none.
pub fn check_order(t: &[u8]) -> Option<usize>
    ensures { MatchOption result (in_order_of t.now ≡ false) (λ f. (in_order_of t.now ≡ true) × (f ≡ free_slots t.now)) }
{
    let n = slots_of(t);
    if n == 0 {
        return None;
    }
    free_placed(t, n)
}

// Whether any bytes are a table in order. As long as the searches are short this takes a time linear in the slots; records made to
// share one home make it quadratic.
pub fn in_order(t: &[u8]) -> bool
    ensures { result ≡ in_order_of t.now }
{
    check_order(t).is_some()
}
