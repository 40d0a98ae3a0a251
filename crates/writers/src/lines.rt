// The lines of a file, from the last back: the keys stand sorted at the output's beginning, and the lines, written at the end, never meet those left.
ghost use Rattle.std.specs.Prelude.{◌≡◌, List, ◌++◌, ℕ, drop};
ghost use Rattle.writers.specs.LeftLaws.{Keyed, lines_of};

use crate::keys::unpack;
use sorting::key;
use text::write_line_back;

// Writes the lines of k keys, whatever keys K they are; total is how long the lines are.
pub fn write_lines(out: &mut [u8], k: usize, total: usize)
    requires { (K : List ℕ) × Keyed K out.old k total }
    ensures { (K : List ℕ) → Keyed K out.old k total → out.new ≡ lines_of K ++ drop total out.old }
{
    let mut at = total;
    for left in (0..k).rev() {
        let r = unpack(key(out, left));
        at = write_line_back(out, at, r);
    }
}
