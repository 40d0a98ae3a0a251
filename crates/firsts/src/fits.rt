// What the other three vertices of a corner's face are known to have of it, by their strides alone.
ghost use Rattle.std.specs.Prelude.{◌≡◌, true, ◌%◌, ◌<◌, Some};
ghost use Rattle.lattice.specs.RecordLaws.{Inner};
ghost use Rattle.table.specs.Slots.{slots_of, slot_at};
ghost use Rattle.table.specs.Order.{InOrder};
ghost use Rattle.firsts.specs.Earlier.{Round};
ghost use Rattle.firsts.specs.Strides.{opposite_by, FitThere, FitsBy, ToldRound, told_earlier};

use crate::earlier::{Placed, earlier};
use crate::faces::next_place;
use crate::strides::{adjacents, back, fit, others, sides, stride};
use lattice::Record;

// Of the vertices at the adjacent point, the opposite and the next adjacent point: 0 where nothing is known, 1 where they have their two sides of the
// face, 2 where they name it too. No enum: `FitThere`, `Told` and `told_earlier`, which may not change, compare the numbers.
#[derive(Clone, Copy)]
pub struct Fits {
    pub adjacent: u8,
    pub opposite: u8,
    pub next: u8,
}

// The least stride.
const LEAST: u8 = 16;

// What the record in slot s has by these strides, where the point across is in the table.
pub fn fit_in(t: &[u8], s: usize, there: bool, x: u8, y: u8, z: u8, n: usize) -> u8
    requires { InOrder t.now × (n ≡ slots_of t.now) }
    ensures { FitThere t.now s there x y z result }
{
    if !there {
        return 0;
    }
    match earlier(t, s, n, n) {
        None => 0,
        Some(u) => {
            if u.d == 0 {
                return 0;
            }
            fit(u, x, y, z)
        }
    }
}

// The same where it is asked for, else 0.
fn fit_asked(t: &[u8], asked: bool, s: usize, there: bool, x: u8, y: u8, z: u8, n: usize) -> u8
    requires { InOrder t.now × (n ≡ slots_of t.now) }
    ensures { FitThere t.now s there x y z result }
{
    if !asked {
        return 0;
    }
    fit_in(t, s, there, x, y, z, n)
}

// The same of all three, in slots a, o and b, by the strides from v, in slot k, to a, to b, and from these to o. Of a and of b it is asked only where
// that is worth something: where they stand before v, or nothing is known of o.
fn fits_by(
    t: &[u8],
    a: usize,
    o: usize,
    b: usize,
    va: u8,
    vb: u8,
    ao: u8,
    bo: u8,
    k: usize,
    n: usize,
) -> Fits
    requires in_order { InOrder t.now × (n ≡ slots_of t.now) }
    requires va_bound { ((va % 16 < 12) × (vb % 16 < 12)) × ((ao % 16 < 12) × (bo % 16 < 12)) }
    ensures { FitsBy t.now a o b va vb ao bo result }
{
    let opposite = fit_in(t, o, true, back(bo), back(ao), back(vb), n);
    let lone = opposite == 0;
    let adjacent = fit_asked(t, lone | (a < k), a, b < n, ao, back(va), back(bo), n);
    let told = ((opposite == 2) & (o < k)) | (adjacent == 2);
    let next = fit_asked(t, lone | ((b < k) & !told), b, a < n, back(vb), bo, va, n);
    Fits {
        adjacent,
        opposite,
        next,
    }
}

// The same of the face of corner j of v, in slot k, by its first or second opposite.
pub fn fits_of(
    t: &[u8],
    v: Record,
    j: u8,
    second: bool,
    a: Placed,
    o: Placed,
    b: Placed,
    k: usize,
    n: usize,
) -> Fits
    requires in_order { InOrder t.now × ((n ≡ slots_of t.now) × (k < n)) }
    requires inner { Inner v × (j < v.d) }
    requires k_value { slot_at t.now k ≡ Some v }
    requires round { Round t.now v j a o b }
    requires second_value { opposite_by v j second ≡ Some o.at }
    ensures { ToldRound t.now v j a o b result }
{
    let d = v.d;
    let e = v.k;
    let m = v.n;
    let va = stride(adjacents(d), j, e, m);
    let vb = stride(adjacents(d), next_place(d, j), e, m);
    let ao = stride(sides(d, second), j, e, m);
    let bo = stride(others(d, second), j, e, m);
    if ao < LEAST || bo < LEAST {
        return Fits {
            adjacent: 0,
            opposite: 0,
            next: 0,
        };
    }
    fits_by(t, a.slot, o.slot, b.slot, va, vb, ao, bo, k, n)
}

// Whether one of the three, in these slots, stands before slot k and is known to name the face.
pub fn told_earlier(fits: Fits, a: usize, o: usize, b: usize, k: usize) -> bool
    ensures { result ≡ told_earlier fits a o b k }
{
    ((fits.adjacent == 2) & (a < k))
        | ((fits.opposite == 2) & (o < k))
        | ((fits.next == 2) & (b < k))
}
