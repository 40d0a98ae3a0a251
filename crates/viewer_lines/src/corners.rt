// The four numbers of a face, smallest first, and the key that they make: a number that rises as the faces' lines do.
ghost use Rattle.std.specs.Prelude.{◌≡◌, ◌<◌};
ghost use Rattle.viewer_lines.specs.ViewerLines.{corners, is_least, next_first, least_first};
ghost use Rattle.viewer_lines.specs.Packed.{packed, unpacked, Small};

use numbering::PLACES;

// The numbers of a face's vertices, in their order round; no array, since the definitions (`corners`, `rises`, `least_first`) name the four.
#[derive(Clone, Copy)]
pub struct Corners {
    pub a: u64,
    pub b: u64,
    pub c: u64,
    pub d: u64,
}

// The square of the greatest table's slots, and the cube.
const PLACES_2: u64 = 4294967296;

const PLACES_3: u64 = 281474976710656;

// The first is the smallest.
fn is_least(q: Corners) -> bool
    ensures { result ≡ is_least q }
{
    q.a <= q.b && q.a <= q.c && q.a <= q.d
}

// The same from the next one on.
fn next_first(q: Corners) -> Corners
    ensures { result ≡ next_first q }
{
    let a = q.b;
    let b = q.c;
    let c = q.d;
    let d = q.a;
    Corners { a, b, c, d }
}

// Turned so that the smallest comes first.
pub fn least_first(q: Corners) -> Corners
    ensures { result ≡ least_first q }
{
    if is_least(q) {
        return q;
    }
    let second = next_first(q);
    if is_least(second) {
        return second;
    }
    let third = next_first(second);
    if is_least(third) {
        return third;
    }
    next_first(third)
}

// Four numbers in one.
pub fn pack(q: Corners) -> u64
    requires { Small q }
    ensures { result ≡ packed q }
{
    q.a * PLACES_3 + (q.b * PLACES_2 + (q.c * PLACES + q.d))
}

// The four numbers again.
pub fn unpack(v: u64) -> Corners
    ensures { (result ≡ unpacked v) × Small result }
{
    let d = v % PLACES;
    let c = v / PLACES % PLACES;
    let b = v / PLACES_2 % PLACES;
    let a = v / PLACES_3;
    Corners { a, b, c, d }
}
