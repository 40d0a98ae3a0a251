// The list of changes, line by line: a number, a tab, a word.
//
// A line is put where it ends within the room, and written where the room lies within the output: so the same functions measure a list, with an output of no
// bytes, and write it. Past the room a position is the room and one, however long the list is.
ghost use Rattle.std.specs.Prelude.{◌≡◌, ◌+◌, ◌≤◌, ◌<◌, ◌^◌, length};
ghost use Rattle.laws.specs.Stores.{Wrote};
ghost use Rattle.text.specs.Decimal.{digits};
ghost use Rattle.salvage.specs.Salvage.{change};
ghost use Rattle.salvage.specs.NoteLaws.{Puts};

use text::{FEED, TAB, digits_back, write_bytes};

// How many digits a number has.
fn digit_count(n: u64) -> usize
    ensures value { result ≡ length (digits n) }
    ensures upper_bound { result ≤ 20 }
{
    let mut v = n;
    let mut w: usize = 1;
    // digits divided off: a `for` would need their number, which is asked for
    while 9 < v {
        v = v / 10;
        w += 1;
    }
    w
}

// Writes a change's line before a position, and gives the position where it begins.
fn note_back(out: &mut [u8], end: usize, line: u64, word: &[u8]) -> usize
    requires { (length (change line word.now) ≤ end) × (end ≤ length out.old) }
    ensures { Wrote out.old result (change line word.now) out.new end }
{
    let last = end - 1;
    out[last] = FEED;
    let from = last - word.len();
    write_bytes(out, from, word);
    let stop = from - 1;
    out[stop] = TAB;
    digits_back(out, stop, line)
}

// Puts a change's line at a position, and gives the position past it.
pub fn put_note(out: &mut [u8], at: usize, room: usize, line: u64, word: &[u8]) -> usize
    requires { (at ≤ room + 1) × (room + 1 < 2 ^ 64) }
    ensures { Puts out.old at room (change line word.now) out.new result }
{
    if room < at {
        return at;
    }
    let wide = digit_count(line) + 2;
    if room - at < wide {
        return room + 1;
    }
    let start = at + wide;
    if room - start < word.len() {
        return room + 1;
    }
    let end = start + word.len();
    if room <= out.len() {
        note_back(out, end, line, word);
    }
    end
}
