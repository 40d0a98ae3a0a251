// The lines of a file, one after the other, entered into a table.
ghost use Rattle.std.specs.Prelude.{◌≡◌, ◌+◌, ◌<◌, ◌^◌};
ghost use Rattle.lattice.specs.Refusals.{fault_number, fault_line};
ghost use Rattle.table.specs.Slots.{Table};
ghost use Rattle.reader.specs.Met.{met_at};
ghost use Rattle.text.specs.LineOrder.{earlier};
ghost use Rattle.readers.specs.Readers.{above, read_lines};
ghost use Rattle.readers.specs.LineSteps.{line_before, entered_step, step_at, table_after, EndsAs};

use lattice::{Fault, Point, Record, Refusal, blank};
use reader::{Met, line_at};
use table::{Found, enter};

// A line whose record is entered: the record, where the next line begins and that line's number.
#[derive(Clone, Copy)]
pub struct Entry {
    pub vertex: Record,
    pub next: usize,
    pub after: u64,
}

// The line of the vertex at p stands before that of the vertex at q.
fn is_earlier(p: Point, q: Point) -> bool
    ensures { result ≡ earlier p q }
{
    (p.m.0, p.a, p.b) < (q.m.0, q.a, q.b)
}

// r stands above the line before, where there is one.
fn rises(line: u64, last: Record, r: Record) -> bool
    ensures { result ≡ above (line_before line last) r }
{
    line == 1 || is_earlier(last.at, r.at)
}

// Enters a line's record: 8 where no slot is free.
fn enter_line(table: &mut [u8], n: usize, line: u64, entry: Entry) -> Result<Option<Entry>, Fault>
    requires { Table table.old n }
    ensures value { result ≡ entered_step table.old line entry }
    ensures table_after { table.new ≡ table_after table.old result }
{
    match enter(table, entry.vertex, n) {
        Found::At(_) => Ok(Some(entry)),
        Found::Free(_) => Ok(Some(entry)),
        Found::Full => Err(Fault {
            why: Refusal::NoRoom,
            line,
        }),
    }
}

// The line at a position, the line before it having the record `last`: 9, 10, 8 in this order, or its record is entered; none at the end of the file.
fn read_line(
    table: &mut [u8],
    n: usize,
    file: &[u8],
    at: usize,
    line: u64,
    last: Record,
) -> Result<Option<Entry>, Fault>
    requires { Table table.old n × (line + 1 < 2 ^ 64) }
    ensures value { result ≡ step_at (line_before line last) table.old line (met_at file.now at line) }
    ensures table_after { table.new ≡ table_after table.old result }
{
    match line_at(file, at, line) {
        Met::Over => Ok(None),
        Met::Fault(line) => Err(Fault {
            why: Refusal::NotValid,
            line,
        }),
        Met::Entry(vertex, next, after) => {
            if !rises(line, last, vertex) {
                return Err(Fault {
                    why: Refusal::NotAbove,
                    line,
                });
            }
            let entry = Entry {
                vertex,
                next,
                after,
            };
            enter_line(table, n, line, entry)
        }
    }
}

// Enters the records of a file, in its order, up to the first fault.
pub fn read_lines(table: &mut [u8], n: usize, file: &[u8]) -> Result<(), Fault>
    requires { Table table.old n }
    ensures { EndsAs (read_lines file.now table.old) (fault_number result) (fault_line result) table.new }
{
    let mut at = 0;
    let mut line: u64 = 1;
    let mut last = blank(); // no line stands before the first
    while let Some(entry) = read_line(table, n, file, at, line, last)? {
        last = entry.vertex;
        at = entry.next;
        line = entry.after;
    }
    Ok(())
}
