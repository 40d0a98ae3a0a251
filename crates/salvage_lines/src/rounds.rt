// Number 20: "one point with two different records".
//
// The table serves as a set of records. Where the file's points all have slots, taking its lines once tells. Where they have not, 20 still goes before 8:
// the table is filled from the lines up to half its slots, and what does not fit any more is only looked up. Where no line goes against what is held, the
// lines that were taken clash with nothing, and the next round begins behind them. A round takes as many lines as half the slots or more.
ghost use Rattle.std.specs.Prelude.{◌≡◌, ◌≤◌, ◌<◌, length, true};
ghost use Rattle.laws.specs.Some.{some_of};
ghost use Rattle.lattice.specs.Records.{valid_of};
ghost use Rattle.table.specs.Slots.{Table, slots_of, cleared_of};
ghost use Rattle.table.specs.Order.{InOrder};
ghost use Rattle.salvage_lines.specs.OldLines.{kept, salvaged, clashes};
ghost use Rattle.salvage_lines.specs.LinesOn.{records_on};
ghost use Rattle.salvage_lines.specs.ClashLaws.{against};
ghost use Rattle.salvage_lines.specs.Rounds.{Takes, Goes, Gathers};

use crate::line::{Piece, piece_at, same_record};
use lattice::Record;
use table::{Found, clear, enter, look_up, read_slot};

// What became of a record: its point is held with another one; the same is held; it is entered; it is absent, and no slot is free.
#[derive(Clone, Copy)]
pub enum Taken {
    Against,
    Again,
    New,
    NoSlot,
}

// What became of a line: there is none; its record goes against what is held; no slot is free for it; or the next one begins at a position, and so many
// records were entered.
#[derive(Clone, Copy)]
pub enum Step {
    Over,
    Clash,
    Full,
    On(usize, usize),
}

// What became of the lines from a position on: all are taken; two clash; or the room is used up, and the lines from another position on are left.
#[derive(Clone, Copy)]
pub enum Gathered {
    All,
    Clashing,
    Upto(usize),
}

// Takes a record into the table.
fn take(table: &mut [u8], n: usize, r: Record) -> Taken
    requires { InOrder table.old × ((n ≡ slots_of table.old) × (valid_of r ≡ true)) }
    ensures { Takes table.old r result table.new }
{
    let f = enter(table, r, n);
    match f {
        Found::Free(_) => Taken::New,
        Found::Full => Taken::NoSlot,
        Found::At(i) => match read_slot(table, i) {
            None => Taken::Again, // a point is found where its record stands
            Some(q) => {
                if same_record(q, r) {
                    return Taken::Again;
                }
                Taken::Against
            }
        },
    }
}

// Takes the line at a position.
fn take_line(table: &mut [u8], n: usize, file: &[u8], at: usize) -> Step
    requires { InOrder table.old × (n ≡ slots_of table.old) }
    ensures { Goes file.now at table.old result table.new }
{
    match piece_at(file, at) {
        Piece::Over => Step::Over,
        Piece::Dropped(next) => Step::On(next, 0),
        Piece::Kept(r, _, next) => match take(table, n, r) {
            Taken::Against => Step::Clash,
            Taken::NoSlot => Step::Full,
            Taken::Again => Step::On(next, 0),
            Taken::New => Step::On(next, 1),
        },
    }
}

// Takes the lines from a position on, and enters no more than `room` records.
pub fn gather(table: &mut [u8], n: usize, file: &[u8], at: usize, room: usize) -> Gathered
    requires table { Table table.old n × (table.old ≡ cleared_of table.old) }
    requires room_nonzero { (0 < room) × (at ≤ length file.now) }
    ensures { Gathers file.now at room table.old result table.new }
{
    let mut p = at;
    let mut left = room;
    // what is counted down is the room, by the records that entered, and no index
    while 0 < left {
        match take_line(table, n, file, p) {
            Step::Over => return Gathered::All,
            Step::Clash => return Gathered::Clashing,
            Step::Full => return Gathered::Upto(p),
            Step::On(next, new) => {
                p = next;
                left -= new;
            }
        }
    }
    Gathered::Upto(p)
}

// A record goes against what the table holds.
fn goes_against(table: &[u8], n: usize, r: Record) -> bool
    requires { Table table.now n }
    ensures { result ≡ against table.now r }
{
    match look_up(table, r.at, n) {
        None => false,
        Some(q) => !same_record(q, r),
    }
}

// So does the record of some line from a position on.
fn some_against(table: &[u8], n: usize, file: &[u8], at: usize) -> bool
    requires { Table table.now n }
    ensures { result ≡ some_of (against table.now) (records_on file.now at) }
{
    let mut p = at;
    // where the next line begins only reading this one tells
    loop {
        match piece_at(file, p) {
            Piece::Over => return false,
            Piece::Dropped(next) => {
                p = next;
            }
            Piece::Kept(r, _, next) => {
                if goes_against(table, n, r) {
                    return true;
                }
                p = next;
            }
        }
    }
}

// Two lines of the file have one point and different records.
pub fn has_clash(table: &mut [u8], n: usize, file: &[u8]) -> bool
    requires { Table table.old n }
    ensures value { result ≡ clashes (kept (salvaged file.now)) }
    ensures table_len_unchanged { length table.new ≡ length table.old }
{
    let half = n / 2;
    let mut at = 0;
    // a round a turn: where the next begins only this one tells
    loop {
        clear(table);
        match gather(table, n, file, at, half) {
            Gathered::All => return false,
            Gathered::Clashing => return true,
            Gathered::Upto(next) => {
                if some_against(table, n, file, next) {
                    return true;
                }
                at = next;
            }
        }
    }
}
