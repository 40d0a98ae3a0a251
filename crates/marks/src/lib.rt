// One bit for each of many places, in lent bytes: eight places a byte.
//
// `marked` reads a bit, `mark` sets it; specs/Marks says what marks are, and what one call after another makes of them.
#![tactic(auto)]

ghost use Rattle.std.specs.Prelude.{◌≡◌, ◌/◌, ◌^◌, ◌<◌, eqb, length};
ghost use Rattle.marks.specs.Marks.{marked_at, with_bit, Marks};

// The powers of 2, eight bits each from the lowest on.
const POWERS: u64 = 0x8040201008040201;

// 2 to the k.
fn power(k: usize) -> u8
    requires { k < 8 }
    ensures { result ≡ 2 ^ k }
{
    ((POWERS >> (8 * k)) % 256) as u8
}

// A byte with bit k set. Whether it has it already cannot be foreseen, so that is a choice and no branch.
fn with_bit(byte: u8, k: usize) -> u8
    requires { k < 8 }
    ensures { (result ≡ with_bit byte k) × (byte < 256) }
{
    if (byte >> k) % 2 == 1 {
        byte
    } else {
        byte + power(k)
    }
}

// Place i is marked.
#[tactic(auto, unfolding(crate::specs::Marks::marked_at))]
pub fn marked(marks: &[u8], i: usize) -> bool
    requires { i / 8 < length marks.now }
    ensures { result ≡ marked_at marks.now i }
{
    let byte = marks[i / 8];
    (byte >> (i % 8)) % 2 == 1
}

// Marks place i, marked already or not.
pub fn mark(marks: &mut [u8], i: usize)
    requires { i / 8 < length marks.old }
    ensures { Marks marks.old (eqb i) marks.new }
{
    let at = i / 8;
    marks[at] = with_bit(marks[at], i % 8);
}
