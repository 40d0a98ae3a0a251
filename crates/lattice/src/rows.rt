// Answers as numbers in a lent row: a count, then six points of three numbers, as the C interface has them.
ghost use Rattle.std.specs.Prelude.{◌≡◌, ◌+◌, ◌≤◌, ◌<◌};
ghost use Rattle.std.proofs.lemmas.List.Edits.{sets};
ghost use Rattle.lattice.specs.AnswerRows.{point_numbers, answer_numbers};
ghost use Rattle.lattice.specs.RecordLaws.{Inner};
ghost use Rattle.lattice.specs.Refusals.{number_of};
ghost use Rattle.lattice.specs.Stars.{adjacent_at, given, refused};

use crate::points::{Depth, Point};
use crate::records::Record;
use crate::refusals::Refusal;

// A count, and six points of three numbers.
pub const ANSWER_NUMBERS: usize = 19;

// A point's three numbers, from place i on.
pub fn put_point(out: &mut [i32; ANSWER_NUMBERS], i: usize, p: Point)
    requires { i + 3 ≤ 19 }
    ensures { out.new ≡ sets out.old i (point_numbers p) }
{
    let a = p.a;
    let b = p.b;
    let m = p.m.0 as i32;
    out[i] = a;
    out[i + 1] = b;
    out[i + 2] = m;
}

// The adjacent point at place j of a star's row, read back.
pub fn point_at(row: &[i32; ANSWER_NUMBERS], v: Record, j: u8) -> Point
    requires row_value { row.now ≡ answer_numbers (given v) }
    requires inner { Inner v × (j < v.d) }
    ensures { result ≡ adjacent_at v j }
{
    let i = 3 * (j as usize) + 1;
    let a = row[i];
    let b = row[i + 1];
    let m = row[i + 2];
    Point {
        a,
        b,
        m: Depth(m as u8),
    }
}

// A refusal by any number: count 0 and all zeros.
pub fn refuse_row(out: &mut [i32; ANSWER_NUMBERS], number: u8) -> u8
    ensures value { result ≡ number }
    ensures out_after { out.new ≡ answer_numbers (refused number) }
{
    *out = [0; ANSWER_NUMBERS];
    number
}

// The same by why it is refused.
pub fn refuse_answer(out: &mut [i32; ANSWER_NUMBERS], why: Refusal) -> Result<(), Refusal>
    ensures value { result ≡ Err why }
    ensures out_after { out.new ≡ answer_numbers (refused (number_of why)) }
{
    refuse_row(out, why.number());
    Err(why)
}
