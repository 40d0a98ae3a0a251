// The findings list joined with the plan: document 02, ticket 1.
//
// One public call answers every table, list and output: `join`. line.rt parses a line of the list, lists.rt judges them all, texts.rt has the two kinds of
// lines of the joined list, keys.rt sorts, lines.rt lays and writes. The promises cite specs/Findings.
#![tactic(auto)]

ghost use Rattle.std.specs.Prelude.{◌≡◌};
ghost use Rattle.lattice.specs.Refusals.{fault_number, fault_line};
ghost use Rattle.table.specs.Slots.{slots_of};
ghost use Rattle.table.specs.Order.{InOrder};
ghost use Rattle.findings.specs.Findings.{joined, written, join_after, put_joined, join_of};
ghost use Rattle.findings.specs.Judged.{found, AllSound, parts_of};

mod keys;
mod line;
mod lines;
mod lists;
mod texts;

use crate::keys::sort_keys;
use crate::lines::{lay, write_keys};
use crate::lists::{Parts, judge};
use lattice::{Fault, Refusal};
use table::{in_order, slots_of};

// Writes the joined list of a list without malformed lines, whose parts are so long, and gives how many bytes it has.
fn write_joined(
    table: &[u8],
    n: usize,
    list: &[u8],
    out: &mut [u8],
    parts: Parts,
) -> Result<u64, Fault>
    requires in_order { InOrder table.now × ((n ≡ slots_of table.now) × AllSound list.now) }
    requires parts_value { parts ≡ parts_of table.now list.now (found list.now) }
    ensures { join_after (fault_number result) (fault_line result) (written result) out.new
        ≡ put_joined (joined table.now list.now (found list.now)) out.old }
{
    let stands = parts.stands;
    let total = stands + parts.lost;
    if out.len() < total {
        return Err(Fault {
            why: Refusal::Short,
            line: 0,
        });
    }
    let k = lay(table, n, list, out, stands);
    sort_keys(list, out, k);
    write_keys(list, out, k, stands);
    Ok(total as u64)
}

// Writes a findings list joined with the plan: for each vertex in the order of the full file its findings, in the list's order, then those whose point has
// no vertex; gives how many bytes. Refused with 1, 15 and the malformed line, or 13, no byte is changed; bytes past the joined list never are. In time
// n log n for n lines and slots, as long as the searches are short, with no memory but the output and a little stack.
pub fn join(table: &[u8], list: &[u8], out: &mut [u8]) -> Result<u64, Fault>
    ensures { join_after (fault_number result) (fault_line result) (written result) out.new
        ≡ join_of table.now list.now out.old }
{
    if !in_order(table) {
        return Err(Fault {
            why: Refusal::NotInOrder,
            line: 0,
        });
    }
    let n = slots_of(table);
    match judge(table, n, list) {
        Err(line) => Err(Fault {
            why: Refusal::BadFinding,
            line,
        }),
        Ok(parts) => write_joined(table, n, list, out, parts),
    }
}
