// The pairs of a list, in one scan: which of those that a vertex's record turns on are among the first n.
ghost use Rattle.std.specs.Prelude.{◌≡◌, true, cond, ◌&&◌, ◌+◌, ◌*◌, ◌≤◌, ◌<◌, pos, length};
ghost use Rattle.laws.specs.Rules.{eq_z};
ghost use Rattle.laws.specs.Triples.{is_byte};
ghost use Rattle.lattice.specs.Points.{same_point};
ghost use Rattle.engine.specs.Engine.{pair_depth, pair_point};
ghost use Rattle.engine.specs.Scan.{Depths, unseen, see_of, seen_of};

use lattice::{Level, Point, normalise, same_point};

// What a record turns on: how often its point was subdivided, which of three parents were at a level, and whether the maker was at the level of entry.
#[derive(Clone, Copy)]
pub struct Wanted {
    pub at: Point,
    pub first: Point,
    pub second: Point,
    pub third: Point,
    pub maker: Point,
    pub level: Level,
    pub entry: Level,
}

// Which of that was seen.
#[derive(Clone, Copy)]
pub struct Seen {
    pub first: bool,
    pub second: bool,
    pub third: bool,
    pub maker: bool,
    pub times: usize,
}

// A depth as written is a byte.
pub fn is_byte(z: i32) -> bool
    ensures { result ≡ is_byte z }
{
    (0 <= z) & (z <= 255)
}

// The point of pair j, whose m is a byte.
pub fn pair_point(pairs: &[i32], j: usize) -> Point
    requires j_in_bounds { 4 * j + 4 ≤ length pairs.now }
    requires j_value { is_byte (pair_depth pairs.now j) ≡ true }
    ensures { result ≡ pair_point pairs.now j }
{
    let a = pairs[4 * j];
    let b = pairs[4 * j + 1];
    let m = pairs[4 * j + 2];
    normalise(a, b, m as u8)
}

// A level as written is this one.
pub fn at_level(z: i32, i: u8) -> bool
    ensures { result ≡ eq_z z (pos i) }
{
    z == (i as i32)
}

// The pair of a point and a level is that of q and i.
fn is_made(q: Point, i: u8, p: Point, z: i32) -> bool
    ensures { result ≡ same_point q p && eq_z z (pos i) }
{
    same_point(q, p) & at_level(z, i)
}

// One more where it is so.
fn counted(n: usize, so: bool) -> usize
    requires { n < 18446744073709551615 }
    ensures { result ≡ n + cond so 1 0 }
{
    n + usize::from(so)
}

// One pair more: its point and its level. Parents are looked at only where the level is theirs: levels come in runs.
fn see(s: Seen, w: Wanted, p: Point, z: i32) -> Seen
    requires { s.times < 18446744073709551615 }
    ensures { result ≡ see_of s w p z }
{
    let maker = is_made(w.maker, w.entry.0, p, z) | s.maker;
    let times = counted(s.times, same_point(w.at, p));
    if !at_level(z, w.level.0) {
        return Seen {
            first: s.first,
            second: s.second,
            third: s.third,
            maker,
            times,
        };
    }
    let first = same_point(w.first, p) | s.first;
    let second = same_point(w.second, p) | s.second;
    let third = same_point(w.third, p) | s.third;
    Seen {
        first,
        second,
        third,
        maker,
        times,
    }
}

// Before any pair.
fn nothing() -> Seen
    ensures { result ≡ unseen }
{
    Seen {
        first: false,
        second: false,
        third: false,
        maker: false,
        times: 0,
    }
}

// The first n pairs.
pub fn scan(pairs: &[i32], n: usize, w: Wanted) -> Seen
    requires n_in_bounds { 4 * n ≤ length pairs.now }
    requires depths { Depths pairs.now n }
    ensures { result ≡ seen_of pairs.now n w }
{
    let mut s = nothing();
    for j in 0..n {
        let p = pair_point(pairs, j);
        let z = pairs[4 * j + 3];
        s = see(s, w, p, z);
    }
    s
}
