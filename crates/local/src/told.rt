// What the parents of a point say of its record.
ghost use Rattle.std.specs.Prelude.{◌≡◌, cond, ◌≤◌, ◌<◌, get_or};
ghost use Rattle.lattice.specs.Ranks.{rank_of};
ghost use Rattle.local.specs.Parents.{degrees, turns, same_star, told_in};

use crate::parents::{Parents, splits};
use lattice::{Record, birth, rank};

// By which parents were subdivided, as a number: the degree, and the turn since birth, four bits each from 0 on.
const DEGREES: u32 = 0x65545443;

const TURNS: u32 = 0x00408840;

// All were.
const ALL: u8 = 7;

fn degree(i: u8) -> u8
    requires { i ≤ 7 }
    ensures { result ≡ get_or degrees i 0 }
{
    ((DEGREES >> (4 * i)) % 16) as u8
}

fn turn_since(i: u8) -> u8
    requires { i ≤ 7 }
    ensures { (result ≡ get_or turns i 0) × (result ≤ 8) }
{
    ((TURNS >> (4 * i)) % 16) as u8
}

// One of two numbers.
fn either(first: bool, x: u8, y: u8) -> u8
    ensures { result ≡ cond first x y }
{
    if first { x } else { y }
}

// A record has this degree, orientation and level.
pub fn same_star(r: Record, d: u8, k: u8, n: u8) -> bool
    ensures { result ≡ same_star r d k n }
{
    (r.d == d) & ((r.k == k) & (r.n.0 == n))
}

// Degree, orientation and level are what the parents say. Which were subdivided cannot be foreseen, so nothing branches on it.
pub fn as_told(r: Record, s: Parents) -> bool
    requires { (r.at.m.0 ≤ 6) × (0 < rank_of r.at) }
    ensures { result ≡ told_in r s }
{
    let p = r.at;
    let n = r.n.0;
    let b = rank(p).0 - 1;
    let i = splits(s, b);
    let all = i == ALL;
    let k = either(all, n % 2, birth(p) + turn_since(i));
    same_star(r, degree(i), k, either(all, n, b))
}
