// A point [a, b, m] is (a + bw)/3^m, where w turns by 60 degrees: whole numbers over a power of three.
ghost use Rattle.std.specs.Prelude.{◌≡◌, ◌&&◌, ◌+◌, ◌*◌, ◌^◌, ◌≤◌, ◌<◌, max, nat_abs, ◌*ℤ◌, pos};
ghost use Rattle.lattice.specs.Points.{pt, same_point, by3, normal_of, turn60_of, sum_of};
ghost use Rattle.lattice.specs.Terms.{terms_of, added_of, Light};
ghost use Rattle.lattice.specs.Bounds.{Small};

// How often the denominator holds the factor 3. It belongs to a point and never changes.
#[derive(Clone, Copy, PartialEq, Eq)]
pub struct Depth(pub u8);

#[derive(Clone, Copy, PartialEq, Eq)]
pub struct Point {
    pub a: i32,
    pub b: i32,
    pub m: Depth,
}

// Two points have the same numbers.
pub fn same_point(p: Point, q: Point) -> bool
    ensures { result ≡ same_point p q }
{
    p == q
}

// 3 divides both.
pub fn both3(x: i32, y: i32) -> bool
    ensures { result ≡ by3 x && by3 y }
{
    (x % 3 == 0) & (y % 3 == 0)
}

// The one written form of (a + bw)/3^m: of any numbers, the normalised point.
pub fn normalise(a: i32, b: i32, m: u8) -> Point
    ensures { result ≡ normal_of a b m }
{
    let mut x = a;
    let mut y = b;
    for d in (0..m).rev() {
        if !both3(x, y) {
            return Point {
                a: x,
                b: y,
                m: Depth(d + 1),
            };
        }
        x = x / 3;
        y = y / 3;
    }
    Point {
        a: x,
        b: y,
        m: Depth(0),
    }
}

// Turned by 60 degrees.
pub fn turn60(p: Point) -> Point
    requires { (nat_abs p.a ≤ 1000000) × (nat_abs p.b ≤ 1000000) }
    ensures { result ≡ turn60_of p }
{
    let m = p.m;
    Point {
        a: -p.b,
        b: p.a + p.b,
        m,
    }
}

// The powers of 3 from the power 0 on, read where they stand: a star asks for two of them at each place.
static POWERS: [i32; 8] = [1, 3, 9, 27, 81, 243, 729, 2187];

// 3 to the k.
pub fn power(k: u8) -> i32
    requires { k < 8 }
    ensures { result ≡ pos (3 ^ k) }
{
    POWERS[k as usize]
}

// Two points over one denominator, to be added: [a, b, m] and [x, y, m].
#[derive(Clone, Copy)]
pub struct Terms {
    pub a: i32,
    pub b: i32,
    pub x: i32,
    pub y: i32,
    pub m: Depth,
}

fn times(x: i32, s: i32) -> i32
    requires { nat_abs x * nat_abs s < 2147483648 }
    ensures { result ≡ x *ℤ s }
{
    x * s
}

// Two points by their numbers, over the deeper one's denominator.
pub fn brought(a: i32, b: i32, m: Depth, x: i32, y: i32, n: Depth) -> Terms
    requires { Small (pt a b m.0) × Small (pt x y n.0) }
    ensures { result ≡ terms_of (pt a b m.0) (pt x y n.0) }
{
    let i = m.0;
    let j = n.0;
    let d = i.max(j);
    let s = power(d - i);
    let t = power(d - j);
    Terms {
        a: times(a, s),
        b: times(b, s),
        x: times(x, t),
        y: times(y, t),
        m: Depth(d),
    }
}

// Their sum, normalised.
pub fn added(w: Terms) -> Point
    requires { Light w }
    ensures { result ≡ added_of w }
{
    normalise(w.a + w.x, w.b + w.y, w.m.0)
}

// The sum of two points by their numbers, normalised.
pub fn sum(a: i32, b: i32, m: Depth, x: i32, y: i32, n: Depth) -> Point
    requires { Small (pt a b m.0) × Small (pt x y n.0) }
    ensures { result ≡ sum_of (pt a b m.0) (pt x y n.0) }
{
    added(brought(a, b, m, x, y, n))
}
