// Searches of a table in order. No point stands twice there, so a slot that holds the point is where its search ends, whichever slot was asked.
ghost use Rattle.std.specs.Prelude.{◌≡◌, true};
ghost use Rattle.lattice.specs.Points.{pt, normal_of};
ghost use Rattle.table.specs.Slots.{Table};
ghost use Rattle.table.specs.Search.{find_of};
ghost use Rattle.table.specs.Order.{in_order_of};
ghost use Rattle.table.specs.Entries.{holds, slot_found};

use crate::entries::is_there;
use crate::groups::{GROUP, guess_in_group, reads_as};
use crate::home::{low, weight};
use crate::probe::{Found, find};
use crate::slots::MOST;
use lattice::{Depth, Point, normalise};

// The depth that a free slot's bytes read as. No record has it.
const NO_DEPTH: u8 = 255;

// Whether a record stands at [a, b, m]. In the most slots nothing is divided: the slot that a group from the home on guesses is tried first.
pub fn stands(t: &[u8], a: i32, b: i32, m: u8, n: usize) -> bool
    requires table { Table t.now n }
    requires t_value { in_order_of t.now ≡ true }
    ensures { result ≡ holds t.now (pt a b m) }
{
    if n == MOST {
        let h = low(weight(a, b, m));
        if h + GROUP < MOST {
            let guess = guess_in_group(t, a, b, h);
            if reads_as(t, a, b, m, guess) & (m < NO_DEPTH) {
                return true;
            }
        }
    }
    is_there(t, Point { a, b, m: Depth(m) }, n)
}

// The slot of the record at a point as a request gives it, n where there is none. The slot guessed is asked first.
// A number and no Option: `slot_found`, which the promise cites, is one.
pub fn slot_by_guess(t: &[u8], a: i32, b: i32, m: u8, n: usize, guess: usize) -> usize
    requires table { Table t.now n }
    requires t_value { in_order_of t.now ≡ true }
    ensures { result ≡ slot_found n (find_of t.now (normal_of a b m)) }
{
    let p = normalise(a, b, m);
    if guess < n && reads_as(t, p.a, p.b, p.m.0, guess) & (p.m.0 < NO_DEPTH) {
        return guess;
    }
    match find(t, p, n) {
        Found::At(i) => i,
        Found::Free(_) | Found::Full => n,
    }
}
