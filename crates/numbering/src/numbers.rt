// The numbers of vertices: by their sorted keys, or, before any byte is written, how many digits they have.
ghost use Rattle.std.specs.Prelude.{◌≡◌, true, List, ℕ, ◌+◌, ◌*◌, ◌≤◌, ◌<◌, length};
ghost use Rattle.table.specs.Slots.{slots_of};
ghost use Rattle.table.specs.Order.{InOrder};
ghost use Rattle.text.specs.Decimal.{digits};
ghost use Rattle.text.specs.LineOrder.{Close};
ghost use Rattle.writers.specs.Kept.{places};
ghost use Rattle.numbering.specs.Numbering.{number_of};
ghost use Rattle.sorting.specs.Sorting.{key_width};
ghost use Rattle.numbering.specs.Ranks.{below_at, below_of, Cut, Cuts, Stand, Searched};

use lattice::Point;
use sorting::key;
use table::read_slot;
use text::order;

// The slots of the greatest table: a key holds an order above its slot.
pub const PLACES: u64 = 65536;

// Past every order.
const ORDERS: u64 = 1924145348608;

// The orders from which on vertex numbers have two, three, four and five digits.
#[derive(Clone, Copy)]
pub struct Widths {
    pub two: u64,
    pub three: u64,
    pub four: u64,
    pub five: u64,
}

// 1 where slot i holds a record of a lower order than x, else 0.
fn is_below(table: &[u8], i: usize, x: u64) -> u32
    requires { InOrder table.now × (i < slots_of table.now) }
    ensures { (result ≡ below_at table.now x i) × (result ≤ 1) }
{
    match read_slot(table, i) {
        None => 0,
        Some(r) => u32::from(order(r.at) < x), // no branch: which order is lower cannot be foreseen
    }
}

// How many records have a lower order than x.
fn count_below(table: &[u8], n: usize, x: u64) -> u32
    requires { InOrder table.now × (n ≡ slots_of table.now) }
    ensures { result ≡ below_of table.now x }
{
    let mut count = 0;
    for i in 0..n {
        count += is_below(table, i, x);
    }
    count
}

// The order from which on a vertex has at least `rank` earlier ones, by halving.
fn cut(table: &[u8], n: usize, rank: u32) -> u64
    requires { InOrder table.now × ((n ≡ slots_of table.now) × (0 < rank)) }
    ensures { Cut table.now rank result }
{
    let mut low: u64 = 0;
    let mut high: u64 = ORDERS;
    // by halving: no range is gone through
    while 1 < high - low {
        let middle = low + (high - low) / 2;
        if count_below(table, n, middle) < rank {
            low = middle;
        } else {
            high = middle;
        }
    }
    high
}

// Where the numbers, of which the first is `first`, become longer.
pub fn widths_of(table: &[u8], n: usize, first: u32) -> Widths
    requires { InOrder table.now × ((n ≡ slots_of table.now) × (first ≤ 1)) }
    ensures { Cuts table.now first result }
{
    Widths {
        two: cut(table, n, 10 - first),
        three: cut(table, n, 100 - first),
        four: cut(table, n, 1000 - first),
        five: cut(table, n, 10000 - first),
    }
}

// How many digits the number of the vertex at p has.
pub fn number_width(w: Widths, first: u32, p: Point) -> usize
    requires close { Close p }
    requires by_index { ((t : List ℕ) × (InOrder t × (Cuts t first w × (number_of t p < places)))) × (first ≤ 1) }
    ensures { ((t : List ℕ) → InOrder t → Cuts t first w → number_of t p < places → result ≡ length (digits (first + number_of t p)))
        × (result ≤ 5) }
{
    let x = order(p);
    let two = usize::from(w.two <= x);
    let three = usize::from(w.three <= x);
    let four = usize::from(w.four <= x);
    let five = usize::from(w.five <= x);
    1 + two + three + four + five
}

// The number of the vertex at p: how many of the k sorted keys come before its own.
fn number_among(out: &[u8], k: usize, p: Point) -> u64
    requires { Close p × ((t : List ℕ) × (InOrder t × Stand t out.now k)) }
    ensures { (t : List ℕ) → InOrder t → Stand t out.now k → result ≡ number_of t p }
{
    let x = order(p) * PLACES;
    let mut low = 0;
    let mut high = k;
    // by halving: no range is gone through
    while low < high {
        let middle = low + (high - low) / 2;
        if key(out, middle) < x {
            low = middle + 1;
        } else {
            high = middle;
        }
    }
    low as u64
}

// Key g is the first that is not below x: then no search is needed.
fn is_place(out: &[u8], k: usize, x: u64, g: usize) -> bool
    requires { key_width * k ≤ length out.now }
    ensures { result ≡ true → (g ≤ k) × ((t : List ℕ) → Stand t out.now k → Searched t x g g) }
{
    if k <= g {
        return false;
    }
    x <= key(out, g) && (g == 0 || key(out, g - 1) < x)
}

// The number of the vertex at p, which is a guess, or found by halving.
pub fn number_near(out: &[u8], k: usize, p: Point, g: usize) -> u64
    requires { Close p × ((t : List ℕ) × (InOrder t × Stand t out.now k)) }
    ensures { (t : List ℕ) → InOrder t → Stand t out.now k → result ≡ number_of t p }
{
    let x = order(p) * PLACES;
    if is_place(out, k, x, g) {
        g as u64
    } else {
        number_among(out, k, p)
    }
}
