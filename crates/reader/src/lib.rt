// A reader on a line of a lent file. Document 01, "Files": "The reader reads the lent file line by line and knows the line it is on, first line 1."
//
// The functions over the reader are thin: each takes it apart, and the work is `text::parse_line`'s, on the slice and a number. Who has to know the line
// that he is on calls `line_at`, whose parameters are plain; who reads a file again that was read before, as restoring does, calls `parse_line`.
#![tactic(auto)]

ghost use Rattle.std.specs.Prelude.{◌≡◌, ◌+◌, ◌<◌, ◌^◌};
ghost use Rattle.text.specs.Line.{line_at};
ghost use Rattle.reader.specs.Met.{numbered, met_at};

use lattice::Record;
use text::{Line, parse_line};

// A reader on a line: the file, where the line begins in it, and the line's number.
#[derive(Clone, Copy)]
struct Reader<'a> {
    file: &'a [u8],
    at: usize,
    line: u64,
}

// What a reader meets on its line: a record, where the next line begins and that line's number; a fault, and its own number; the end of the file.
#[derive(Clone, Copy)]
pub enum Met {
    Entry(Record, usize, u64),
    Fault(u64),
    Over,
}

// What a reader on line `line` meets where l stands.
fn numbered(l: Line, line: u64) -> Met
    requires { line + 1 < 2 ^ 64 }
    ensures { result ≡ numbered line l }
{
    match l {
        Line::End => Met::Over,
        Line::Bad => Met::Fault(line),
        Line::Good(r, next) => Met::Entry(r, next, line + 1),
    }
}

// The reader on a line.
fn on<'a>(file: &'a [u8], at: usize, line: u64) -> Reader<'a>
    ensures { (result.file ≡ file.entry) × ((result.at ≡ at) × (result.line ≡ line)) }
{
    Reader { file, at, line }
}

// What stands on the reader's line.
fn line_here<'a>(r: Reader<'a>) -> Line
    ensures { result ≡ line_at r.entry.file.now r.entry.at }
{
    parse_line(r.file, r.at)
}

// The line that the reader is on.
fn number<'a>(r: Reader<'a>) -> u64
    ensures { result ≡ r.entry.line }
{
    r.line
}

// What the reader on line `line`, which begins at a position, meets there.
pub fn line_at(file: &[u8], at: usize, line: u64) -> Met
    requires { line + 1 < 2 ^ 64 }
    ensures { result ≡ met_at file.now at line }
{
    let r = on(file, at, line);
    numbered(line_here(r), number(r))
}
