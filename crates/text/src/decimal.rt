// Decimal numbers in bytes: no plus sign, no leading zero, minus only before a nonzero number. Each ends with a byte of the caller's choice, a tab or a
// line feed.
ghost use Rattle.std.specs.Prelude.{◌≡◌, ◌+◌, ◌≤◌, ◌<◌, length, drop};
ghost use Rattle.laws.specs.Stores.{Wrote};
ghost use Rattle.text.specs.Decimal.{minus, digits, numeral, ended};
ghost use Rattle.text.specs.Reading.{plainly, begins, number_at, signed_at};

use lattice::size;

// n digits with this first one are a number: at least one, and no leading zero.
fn is_plain(first: u8, n: usize) -> bool
    ensures { result ≡ plainly first n }
{
    if first == b'0' { n == 1 } else { 0 < n }
}

// The number at a position, of at most `most`, and the position past the byte `stop` that ends it, or none. A longer one is refused at the first digit that
// takes it above `most`.
pub fn read_number(t: &[u8], at: usize, most: u32, stop: u8) -> Option<(u32, usize)>
    ensures { result ≡ number_at t.now at most stop }
{
    let top = most as u64;
    let mut v: u64 = 0;
    for i in at..t.len() {
        let c = t[i];
        if !c.is_ascii_digit() {
            let first = t[at];
            if (c == stop) & is_plain(first, i - at) {
                return Some((v as u32, i + 1));
            }
            return None;
        }
        v = v * 10 + (c - b'0') as u64;
        if top < v {
            return None;
        }
    }
    None // the file ends, and nothing ended the number
}

// A minus sign stands at a position.
fn is_minus(t: &[u8], at: usize) -> bool
    ensures { result ≡ begins minus (drop at t.now) }
{
    at < t.len() && t[at] == b'-'
}

// The same as `read_number` with a sign; `most` bounds the size.
pub fn read_signed(t: &[u8], at: usize, most: u32, stop: u8) -> Option<(i32, usize)>
    requires { most < 2147483648 }
    ensures { result ≡ signed_at t.now at most stop }
{
    if is_minus(t, at) {
        let (n, next) = read_number(t, at + 1, most, stop)?;
        if n == 0 {
            return None;
        }
        Some((-(n as i32), next))
    } else {
        let (n, next) = read_number(t, at, most, stop)?;
        Some((n as i32, next))
    }
}

// Every numerator of a record is below it.
const MILLION: u32 = 1000000;

// How many digits a number has. No branch on which: how long the next number is cannot be foreseen.
pub fn width(n: u32) -> usize
    ensures value { result ≡ length (digits n) }
    ensures lower_bound { (1 ≤ result) × (result ≤ 10) }
{
    if n < MILLION {
        let two = usize::from(9 < n);
        let three = usize::from(99 < n);
        let four = usize::from(999 < n);
        let five = usize::from(9999 < n);
        let six = usize::from(99999 < n);
        1 + two + three + four + five + six
    } else {
        n.ilog10() as usize + 1
    }
}

// Writes a number's digits, the last before a position, from the last back, and gives the position of the first.
pub fn digits_back(out: &mut [u8], end: usize, n: u64) -> usize
    requires { (length (digits n) ≤ end) × (end ≤ length out.old) }
    ensures { Wrote out.old result (digits n) out.new end }
{
    let mut at = end;
    let mut v = n;
    // a `for` over the places would need the number of digits first, which no caller has to know
    while 9 < v {
        at -= 1;
        out[at] = b'0' + (v % 10) as u8;
        v = v / 10;
    }
    at -= 1;
    out[at] = b'0' + v as u8;
    at
}

// Writes a number and the byte that ends it at a position, and gives the position past both.
pub fn write_number(out: &mut [u8], at: usize, n: u32, stop: u8) -> usize
    requires { at + length (ended (digits n) stop) ≤ length out.old }
    ensures { Wrote out.old at (ended (digits n) stop) out.new result }
{
    let end = at + width(n) + 1;
    number_back(out, end, n, stop);
    end
}

// Writes a number and the byte that ends it, both before a position, and gives the position of the first digit.
pub fn number_back(out: &mut [u8], end: usize, n: u32, stop: u8) -> usize
    requires { (length (ended (digits n) stop) ≤ end) × (end ≤ length out.old) }
    ensures { Wrote out.old result (ended (digits n) stop) out.new end }
{
    let last = end - 1;
    out[last] = stop;
    digits_back(out, last, n as u64)
}

// The same as `number_back` with a sign.
pub fn signed_back(out: &mut [u8], end: usize, z: i32, stop: u8) -> usize
    requires { (length (ended (numeral z) stop) ≤ end) × (end ≤ length out.old) }
    ensures { Wrote out.old result (ended (numeral z) stop) out.new end }
{
    let n = size(z);
    if z < 0 {
        let at = number_back(out, end, n, stop) - 1;
        out[at] = b'-';
        return at;
    }
    number_back(out, end, n, stop)
}

// How many bytes a number with its sign has.
pub fn signed_width(z: i32) -> usize
    ensures value { result ≡ length (numeral z) }
    ensures lower_bound { (1 ≤ result) × (result ≤ 11) }
{
    let w = width(size(z));
    if z < 0 { w + 1 } else { w }
}
