// A list judged: the first malformed line, or how long the two parts of the joined list are.
ghost use Rattle.std.specs.Prelude.{◌≡◌, List, ℕ, ◌+◌, ◌<◌, length};
ghost use Rattle.table.specs.Slots.{Table};
ghost use Rattle.findings.specs.Findings.{stands_text, lost_text};
ghost use Rattle.findings.specs.EntryLaws.{InList};
ghost use Rattle.findings.specs.StandingLaws.{lengths};
ghost use Rattle.findings.specs.Judged.{with_line, judged_of};

use crate::line::{Entry, Finding, entry_at};
use crate::texts::{lost_length, point_of, stands_length};
use table::is_there;

// How long the two parts of a joined list are: the lines of the findings on the plan, and those of the lost ones.
#[derive(Clone, Copy)]
pub struct Parts {
    pub stands: usize,
    pub lost: usize,
}

// The parts with the line of one finding more.
fn with_line(table: &[u8], n: usize, p: Parts, f: Finding) -> Parts
    requires table { Table table.now n }
    requires by_index { (l : List ℕ) × InList l f × (p.stands + length (stands_text l f) < lengths) × (p.lost + length (lost_text l f) < lengths) }
    ensures { (l : List ℕ) → InList l f → result ≡ with_line table.now l p f }
{
    if is_there(table, point_of(f), n) {
        Parts {
            stands: p.stands + stands_length(f),
            ..p
        }
    } else {
        Parts {
            lost: p.lost + lost_length(f),
            ..p
        }
    }
}

// Judges a list for a table of n slots, each line parsed, each point looked up: how long its parts are, or its first malformed line.
pub fn judge(table: &[u8], n: usize, list: &[u8]) -> Result<Parts, u64>
    requires { Table table.now n }
    ensures { result ≡ judged_of table.now list.now }
{
    let mut at = 0;
    let mut line: u64 = 1;
    let mut parts = Parts { stands: 0, lost: 0 };
    // where a line begins is known when the one before is parsed, and two of the three cases return
    loop {
        match entry_at(list, at) {
            Entry::End => return Ok(parts),
            Entry::Bad => return Err(line),
            Entry::Good(f) => {
                parts = with_line(table, n, parts, f);
                at = f.next;
                line += 1;
            }
        }
    }
}
