// The three parents of a point, each looked up once and kept as a number.
ghost use Rattle.std.specs.Prelude.{◌≡◌, ◌≤◌, ◌<◌, nat_abs};
ghost use Rattle.lattice.specs.Bounds.{summable};
ghost use Rattle.lattice.specs.Ranks.{rank_of};
ghost use Rattle.table.specs.Slots.{Table};
ghost use Rattle.local.specs.Steps.{step_by};
ghost use Rattle.local.specs.Parents.{Born, stand_of, stand_at, parent_at, parents_of, seen, split, all_there, all_split, creator_in, creator_over, splits_in};

use crate::steps::stepped;
use lattice::{Depth, Point, Record, birth, foremost, parent, rank, turn60};
use table::look_up;

// The parents of a point, in their order: 0 where none is there, n + 2 where it has degree 6 and level n, else 1.
// No enum: which it is cannot be foreseen, and `told_in` adds up what the numbers say with no branch.
#[derive(Clone, Copy)]
pub struct Parents {
    pub first: u32,
    pub second: u32,
    pub third: u32,
}

// What was looked up, as such a number.
fn stand(l: Option<Record>) -> u32
    ensures { result ≡ stand_of l }
{
    match l {
        None => 0,
        Some(u) => { if u.d == 6 { u32::from(u.n.0) + 2 } else { 1 } }
    }
}

// Parent j of p.
fn parent_of(t: &[u8], p: Point, j: u8, n: usize) -> u32
    requires table { Table t.now n }
    requires born { Born p × (j < 3) }
    ensures { result ≡ parent_at t.now p j }
{
    stand(look_up(t, parent(p, j), n))
}

// All three, three lookups.
pub fn parents_of(t: &[u8], p: Point, n: usize) -> Parents
    requires table { Table t.now n }
    requires born { Born p }
    ensures { result ≡ parents_of t.now p }
{
    let first = parent_of(t, p, 0, n);
    let second = parent_of(t, p, 1, n);
    let third = parent_of(t, p, 2, n);
    Parents {
        first,
        second,
        third,
    }
}

// What the step by x and y from [a, b, m] ends at.
fn deep_parent(t: &[u8], a: i32, b: i32, m: Depth, x: i32, y: i32, n: usize) -> u32
    requires table { Table t.now n }
    requires a_bound { (nat_abs a ≤ summable) × (nat_abs b ≤ summable) }
    requires x_bound { (nat_abs x ≤ 10) × (nat_abs y ≤ 10) }
    requires m_nonzero { 0 < m.0 }
    ensures { result ≡ stand_at t.now (step_by a b m.0 x y) }
{
    stand(look_up(t, stepped(a, b, m, x, y), n))
}

// The parents of a point of depth above 0, by steps at its own depth: the first goes where the first adjacent point lies at the orientation of birth, each
// other is the one before it, turned by 120 degrees.
pub fn deep_parents(t: &[u8], p: Point, n: usize) -> Parents
    requires table { Table t.now n }
    requires born { Born p × (0 < p.m.0) }
    ensures { result ≡ parents_of t.now p }
{
    let x = foremost(birth(p));
    let y = turn60(turn60(x));
    let z = turn60(turn60(y));
    let m = p.m;
    let first = deep_parent(t, p.a, p.b, m, x.a, x.b, n);
    let second = deep_parent(t, p.a, p.b, m, y.a, y.b, n);
    let third = deep_parent(t, p.a, p.b, m, z.a, z.b, n);
    Parents {
        first,
        second,
        third,
    }
}

// It is there.
fn is_seen(s: u32) -> bool
    ensures { result ≡ seen s }
{
    0 < s
}

// It was subdivided at level b.
fn is_split(s: u32, b: u8) -> bool
    ensures { result ≡ split b s }
{
    u32::from(b) + 2 < s
}

// All three are there.
pub fn all_there(s: Parents) -> bool
    ensures { result ≡ all_there s }
{
    is_seen(s.first) & is_seen(s.second) & is_seen(s.third)
}

// All three were subdivided at level b.
fn all_split(s: Parents, b: u8) -> bool
    ensures { result ≡ all_split s b }
{
    is_split(s.first, b) & is_split(s.second, b) & is_split(s.third, b)
}

// The creator of p: the first parent that could be subdivided a level earlier still.
fn creator_in(p: Point, s: Parents) -> u32
    requires { Born p }
    ensures { result ≡ creator_in p s }
{
    let b = rank(p).0 - 1;
    if rank(parent(p, 0)).0 < b {
        return s.first;
    }
    if rank(parent(p, 1)).0 < b {
        return s.second;
    }
    s.third
}

// The creator of p was subdivided at the level that enters p. Mostly all three were, and which it is need not be known.
pub fn creator_over(p: Point, s: Parents) -> bool
    requires { Born p × (1 < rank_of p) }
    ensures { result ≡ creator_over p s }
{
    let b = rank(p).0 - 2;
    if all_split(s, b) {
        return true;
    }
    is_split(creator_in(p, s), b)
}

// Which parents were subdivided at level b: the first counts 1, the second 2, the third 4.
pub fn splits(s: Parents, b: u8) -> u8
    ensures { (result ≡ splits_in s b) × (result ≤ 7) }
{
    u8::from(is_split(s.first, b))
        + 2 * u8::from(is_split(s.second, b))
        + 4 * u8::from(is_split(s.third, b))
}
