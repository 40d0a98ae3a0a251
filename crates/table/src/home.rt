// The home slot of a point: exact whole numbers, in 64 bits, and a remainder that is never negative.
ghost use Rattle.std.specs.Prelude.{◌≡◌, ◌≤◌, ◌<◌, nat_abs};
ghost use Rattle.laws.specs.Residue.{mod_z};
ghost use Rattle.table.specs.Reading.{over};
ghost use Rattle.table.specs.Search.{weight_of, home_of};

use crate::slots::MOST;
use lattice::Point;

// A multiple of the most slots, over every weight.
const OVER: i64 = 281474976710656;

// 7919a + 104729b + m: from depth 4 on it can be over 32 bits.
pub fn weight(a: i32, b: i32, m: u8) -> i64
    ensures { result ≡ weight_of a b m }
{
    7919 * i64::from(a) + 104729 * i64::from(b) + i64::from(m)
}

// What s leaves on division by n.
fn remainder(s: i64, n: usize) -> usize
    requires { (0 < n) × (n ≤ 65536) }
    ensures { (result ≡ mod_z s n) × (result < n) }
{
    s.rem_euclid(n as i64) as usize
}

// The same for the most slots. A number that is not negative leaves its low bits there, which no division has to find.
pub fn low(s: i64) -> usize
    requires { nat_abs s < over }
    ensures { (result ≡ mod_z s 65536) × (result < 65536) }
{
    (s + OVER) as usize % MOST
}

// The slot where a search for p begins, in a table of n slots.
pub fn home(p: Point, n: usize) -> usize
    requires { (0 < n) × (n ≤ 65536) }
    ensures { (result ≡ home_of p n) × (result < n) }
{
    let s = weight(p.a, p.b, p.m.0);
    if n == MOST {
        return low(s);
    }
    remainder(s, n)
}
