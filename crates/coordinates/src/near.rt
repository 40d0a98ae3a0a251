// The whole number of ten-thousandths that is nearest to a coordinate: there is never a tie.
ghost use Rattle.std.specs.Prelude.{◌≡◌, ◌+◌, ◌*◌, ◌^◌, ◌≤◌, ◌<◌, nat_abs, ◌+ℤ◌};
ghost use Rattle.text.specs.Near.{widest};
ghost use Rattle.coordinates.specs.Coordinates.{near_x, near_y};

// The square root of 300,000,000, as a fraction: it only guides the search for a root.
const ROOT: u64 = 4540467268;

const ROOT_OF_ONE: u64 = 262144;

// 2a+b: x, times 2 × 3^m.
pub fn across(a: i32, b: i32) -> i32
    requires { (nat_abs a ≤ widest) × (nat_abs b ≤ widest) }
    ensures { (result ≡ a +ℤ a +ℤ b) × (nat_abs result ≤ 3 * widest) }
{
    a + a + b
}

// 3 to the m.
fn power(m: u8) -> u64
    requires { m ≤ 6 }
    ensures { (result ≡ 3 ^ m) × ((1 ≤ result) × (result ≤ 729)) }
{
    match m {
        0 => 1,
        1 => 3,
        2 => 9,
        3 => 27,
        4 => 81,
        5 => 243,
        _ => 729,
    }
}

// The whole part of a square root where a guess is it, or one below it, as it nearly always is: then nothing is halved. It is right whatever is guessed.
fn root_near(q: u64, guess: u64) -> u64
    requires { guess < 4294967294 }
    ensures { (result * result ≤ q) × ((q < (result + 1) * (result + 1)) × (result < 4294967296)) }
{
    let next = guess + 1;
    let after = guess + 2;
    if q < guess * guess {
        return q.isqrt();
    }
    if q < next * next {
        return guess;
    }
    if q < after * after {
        return next;
    }
    q.isqrt()
}

// Twice the ten-thousandths of y, or one fewer.
fn guess(b: u64, p: u64) -> u64
    requires { (b ≤ widest) × (1 ≤ p) }
    ensures { result < 4294967294 }
{
    b * ROOT / ROOT_OF_ONE / p
}

// The ten-thousandths of x, by the size of 2a+b.
pub fn near_x(s: u32, m: u8) -> u32
    requires { (s ≤ 3 * widest) × (m ≤ 6) }
    ensures { result ≡ near_x s m }
{
    let p = power(m);
    ((10000 * s as u64 + p) / (2 * p)) as u32
}

// The ten-thousandths of y, by the size of b.
pub fn near_y(b: u32, m: u8) -> u32
    requires { (b ≤ widest) × (m ≤ 6) }
    ensures { result ≡ near_y b m }
{
    let p = power(m);
    let s = b as u64;
    let w = root_near(300000000 * (s * s) / (p * p), guess(s, p));
    ((w + 1) / 2) as u32
}
