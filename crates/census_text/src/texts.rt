// The text of a census, written into lent bytes: first words, and then a line of numbers, tabs between.
ghost use Rattle.std.specs.Prelude.{◌≡◌, ◌++◌, ◌+◌, ◌≤◌, ◌<◌, length};
ghost use Rattle.lattice.specs.Refusals.{number_of, number_told};
ghost use Rattle.laws.specs.Stores.{Wrote};
ghost use Rattle.census_text.specs.Census.{row, counts_text, refused_text, put, put_text};
ghost use Rattle.census_text.specs.TextLaws.{stop_at};

use counts::Counts;
use lattice::Refusal;
use text::{FEED, TAB, width, write_bytes, write_number};

// Whether the input counts, or why it is refused, and the bytes of the text; refused as short, none, where the output is shorter.
#[derive(Clone, Copy)]
pub struct Census {
    pub outcome: Result<(), Refusal>,
    pub written: u64,
}

// The byte after number i of n.
fn stop_at(n: usize, i: usize) -> u8
    requires { i < n }
    ensures { result ≡ stop_at n i }
{
    if i + 1 == n { FEED } else { TAB }
}

// Writes a line of at most eight numbers at a position, and gives the position past it.
fn write_row(out: &mut [u8], at: usize, ns: &[u32]) -> usize
    requires { (at + length (row ns.now) ≤ length out.old) × (length ns.now ≤ 8) }
    ensures { Wrote out.old at (row ns.now) out.new result }
{
    let mut p = at;
    for (i, n) in ns.iter().enumerate() {
        p = write_number(out, p, *n, stop_at(ns.len(), i));
    }
    p
}

// How many bytes a line of at most eight numbers has.
fn row_width(ns: &[u32]) -> usize
    requires { length ns.now ≤ 8 }
    ensures { (result ≡ length (row ns.now)) × (result ≤ 88) }
{
    let mut w = 0;
    for n in ns {
        w = w + width(*n) + 1;
    }
    w
}

// Writes words and then a line of at most eight numbers, if the output is long enough for both.
fn put_text(out: &mut [u8], outcome: Result<(), Refusal>, words: &[u8], ns: &[u32]) -> Census
    requires { (length words.now ≤ 40) × (length ns.now ≤ 8) }
    ensures out_after { put (number_told result.outcome) result.written out.new
        ≡ put_text (number_told outcome) (words.now ++ row ns.now) out.old }
    ensures ns_len_bound { length (words.now ++ row ns.now) ≤ 128 }
{
    let total = words.len() + row_width(ns);
    if out.len() < total {
        return Census {
            outcome: Err(Refusal::Short),
            written: 0,
        };
    }
    let at = write_bytes(out, 0, words);
    write_row(out, at, ns);
    Census {
        outcome,
        written: total as u64,
    }
}

// Writes the text of what was counted.
pub fn put_counts(out: &mut [u8], c: Counts) -> Census
    ensures out_after { put (number_told result.outcome) result.written out.new ≡ put_text 0 (counts_text c) out.old }
    ensures c_len_bound { length (counts_text c) ≤ 128 }
{
    let ns = [c.vertices, c.edges, c.faces, c.d0, c.d3, c.d4, c.d5, c.d6];
    put_text(out, Ok(()), b"V\tE\tF\td0\td3\td4\td5\td6\n", &ns)
}

// Writes the text of a refusal.
pub fn put_refused(out: &mut [u8], why: Refusal, line: u64) -> Census
    requires { line ≤ 65536 }
    ensures out_after { put (number_told result.outcome) result.written out.new
        ≡ put_text (number_of why) (refused_text (number_of why) line) out.old }
    ensures line_len_bound { length (refused_text (number_of why) line) ≤ 128 }
{
    let ns = [why.number() as u32, line as u32];
    put_text(out, Err(why), b"refused\t", &ns)
}
