// A list of centres judged: document 01, "Base", its first sentence. No table is needed for it.
//
// Each centre is looked at once: a bit for each centre that there can be says which came before, and then which hexagons are listed. `first_bad` judges
// the list, `is_marked` asks for a hexagon. The promises cite specs/Centres; what the marks stand for is specs/Marks.
#![tactic(auto)]

ghost use Rattle.std.specs.Prelude.{◌≡◌, true, not, ◌+◌, ◌*◌, ◌≤◌, ◌<◌, leb, nat_abs, length};
ghost use Rattle.centres.specs.Centres.{centre_at, good_centre, bad_at, first_bad};
ghost use Rattle.centres.specs.Marks.{places, number_of, in_marks, Marked};

use lattice::{Depth, Point, class};
use marks::{mark, marked};

// The range of a centre's numbers, and how many numbers b there can be beside an a.
const LEAST: i32 = -250;

const MOST: i32 = 250;

const BESIDE: usize = 167;

// The bytes that hold a mark for each of the 501 x 167 possible centres: which of them are listed.
pub const MARK_BYTES: usize = 10459;

// A number lies in -250..250.
fn in_reach(x: i32) -> bool
    ensures { result ≡ leb (nat_abs x) 250 }
{
    (LEAST <= x) & (x <= MOST)
}

// A centre in range, whose a - b is divisible by 3.
fn is_good(p: Point) -> bool
    ensures { result ≡ good_centre p }
{
    in_reach(p.a) & (in_reach(p.b) & (class(p) == 0))
}

// Centre i of the list.
pub fn centre_at(centres: &[i32], i: usize) -> Point
    requires { 2 * i + 1 < length centres.now }
    ensures { result ≡ centre_at centres.now i }
{
    let a = centres[2 * i];
    let b = centres[2 * i + 1];
    Point { a, b, m: Depth(0) }
}

// The place of a good centre among the marks.
fn number(p: Point) -> usize
    requires { good_centre p ≡ true }
    ensures { (result ≡ number_of p) × (result < places) }
{
    let x = (p.a + MOST) as usize;
    let y = (p.b + MOST) as usize;
    x * BESIDE + y / 3
}

// A point of depth 0 is one of the marked centres.
pub fn is_marked(marks: &[u8; MARK_BYTES], p: Point) -> bool
    requires { p.m.0 ≡ 0 }
    ensures { result ≡ in_marks marks.now p }
{
    is_good(p) && marked(marks, number(p))
}

// Marks centre i where it is good and stands nowhere before: false where it is bad.
fn admit(centres: &[i32], i: usize, marks: &mut [u8; MARK_BYTES]) -> bool
    requires i_in_bounds { 2 * i + 1 < length centres.now }
    requires marked { Marked marks.old centres.now i }
    ensures value { result ≡ not (bad_at centres.now i) }
    ensures marked_2 { result ≡ true → Marked marks.new centres.now (i + 1) }
{
    let p = centre_at(centres, i);
    if !is_good(p) {
        return false;
    }
    let k = number(p);
    if marked(marks, k) {
        return false;
    }
    mark(marks, k);
    true
}

// The place of the first bad centre, or their count where there is none: then all are marked. No Option: so `first_bad` says it, which other promises cite.
pub fn first_bad(centres: &[i32], count: usize, marks: &mut [u8; MARK_BYTES]) -> usize
    requires count_in_bounds { 2 * count ≤ length centres.now }
    requires marked { Marked marks.old centres.now 0 }
    ensures value { result ≡ first_bad centres.now 0 count }
    ensures marked_2 { count ≤ result → Marked marks.new centres.now count }
{
    for i in 0..count {
        if !admit(centres, i, marks) {
            return i;
        }
    }
    count
}
