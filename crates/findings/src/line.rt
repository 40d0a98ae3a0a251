// A finding's line: number, a, b, m and a note, tabs between, ended by a line feed.
ghost use Rattle.std.specs.Prelude.{◌≡◌};
ghost use Rattle.std.specs.List.{position};
ghost use Rattle.findings.specs.Findings.{breaks, entry_at};
ghost use Rattle.findings.specs.EntryCases.{numbered_at};

use lattice::Point;
use text::{FEED, TAB, in_limits, read_number, read_point};

const MOST_NUMBER: u32 = 999999;

const LONGEST_NOTE: usize = 80;

// A finding: its number, its point as written, where its line stands, where its note does, and where the next line.
#[derive(Clone, Copy)]
pub struct Finding {
    pub number: u32,
    pub at: Point,
    pub from: usize,
    pub note: usize,
    pub next: usize,
}

// What stands where a line is looked for: a finding; no line of one; nothing, the list being at its end.
#[derive(Clone, Copy)]
pub enum Entry {
    Good(Finding),
    Bad,
    End,
}

// Where a note ends: at a tab or a line feed.
fn note_end(rest: &[u8]) -> Option<usize>
    ensures { result ≡ position breaks rest.now }
{
    rest.iter().position(|c| (*c == TAB) | (*c == FEED))
}

// The finding at a position whose number is known: its point, and a note that the line feed ends.
fn numbered(list: &[u8], from: usize, number: u32, past: usize) -> Entry
    ensures { result ≡ numbered_at list.now from number past }
{
    let Some((p, note)) = read_point(list, past) else {
        return Entry::Bad;
    };
    let rest = &list[note..];
    let Some(n) = note_end(rest) else {
        return Entry::Bad;
    };
    let good = (0 < number) & (in_limits(p) & ((rest[n] == FEED) & (n <= LONGEST_NOTE)));
    if good {
        Entry::Good(Finding {
            number,
            at: p,
            from,
            note,
            next: note + n + 1,
        })
    } else {
        Entry::Bad
    }
}

// The finding at a position of a list.
pub fn entry_at(list: &[u8], at: usize) -> Entry
    ensures { result ≡ entry_at list.now at }
{
    if list.len() <= at {
        return Entry::End;
    }
    let Some((number, past)) = read_number(list, at, MOST_NUMBER, TAB) else {
        return Entry::Bad;
    };
    numbered(list, at, number, past)
}
