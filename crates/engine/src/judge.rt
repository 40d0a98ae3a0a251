// Both lists judged: the centres as a base's are, the pairs one by one.
ghost use Rattle.std.specs.Prelude.{◌≡◌, true, ◌+◌, ◌*◌, ◌≤◌, length};
ghost use Rattle.growth.specs.Sheets.{CentreSet};
ghost use Rattle.lattice.specs.Refusals.{number_told};
ghost use Rattle.centres.specs.Centres.{unpaired};
ghost use Rattle.centres.specs.Marks.{in_marks, Marked};
ghost use Rattle.engine.specs.Engine.{fits_at, judged_to};
ghost use Rattle.engine.specs.Scan.{six_by, judge_of, Ready};

use crate::pairs::{at_level, is_byte, pair_point};
use crate::records::record_at;
use centres::{MARK_BYTES, first_bad};
use lattice::{Record, Refusal};

// No vertex is subdivided at this level.
const LAST: u8 = 12;

// A vertex of degree 6, at this level, below the last.
fn is_six(v: Option<Record>, z: i32) -> bool
    ensures { result ≡ six_by z v }
{
    match v {
        Some(r) => (r.d == 6) & ((r.n.0 < LAST) & at_level(z, r.n.0)),
        None => false,
    }
}

// Pair j fits: after those before it, which do, its vertex can be subdivided and stands at its level.
fn pair_fits(marks: &[u8; MARK_BYTES], pairs: &[i32], j: usize) -> bool
    requires j_in_bounds { 4 * j + 4 ≤ length pairs.now }
    requires centre_set { CentreSet (in_marks marks.now) }
    requires j_value { judged_to (in_marks marks.now) pairs.now j ≡ true }
    ensures { result ≡ fits_at (in_marks marks.now) pairs.now j }
{
    let m = pairs[4 * j + 2];
    let z = pairs[4 * j + 3];
    if !is_byte(m) {
        return false;
    }
    is_six(record_at(marks, pairs, j, pair_point(pairs, j)), z)
}

// Each of the first n pairs fits. A scan of the pairs before it for each. No chain of `all`: a pair may be asked for only where those before it fit.
fn all_fit(marks: &[u8; MARK_BYTES], pairs: &[i32], n: usize) -> bool
    requires n_in_bounds { 4 * n ≤ length pairs.now }
    requires centre_set { CentreSet (in_marks marks.now) }
    ensures { result ≡ judged_to (in_marks marks.now) pairs.now n }
{
    for j in 0..n {
        if !pair_fits(marks, pairs, j) {
            return false;
        }
    }
    true
}

// The list of centres is empty or of odd length.
fn unpaired(centres: &[i32]) -> bool
    ensures { result ≡ unpaired centres.now }
{
    let l = centres.len();
    l == 0 || l % 2 != 0
}

// 2, 21, or done: then the centres are marked, and the records can be asked for.
pub fn judge(centres: &[i32], pairs: &[i32], marks: &mut [u8; MARK_BYTES]) -> Result<(), Refusal>
    requires { Marked marks.old centres.now 0 }
    ensures value { number_told result ≡ judge_of centres.now pairs.now }
    ensures ready { number_told result ≡ 0 → Ready centres.now pairs.now marks.new }
{
    if unpaired(centres) {
        return Err(Refusal::BadList);
    }
    let l = centres.len();
    if first_bad(centres, l / 2, marks) < l / 2 {
        return Err(Refusal::BadList);
    }
    let k = pairs.len();
    if k % 4 != 0 {
        return Err(Refusal::NotLeft);
    }
    if !all_fit(marks, pairs, k / 4) {
        return Err(Refusal::NotLeft);
    }
    Ok(())
}
