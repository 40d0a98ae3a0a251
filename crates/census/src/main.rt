// Document 01's census program: standard input read, the text of its census written to standard output. `answer` is all that it does with
// its input: its promise has the 5,461 slots and every byte of the text. `fill` promises that it stays within its room. What is read and written no
// promise can say; the program's runs show it (.ci/census-runs). Where a read fails nothing is written.
#![tactic(auto)]

ghost use Rattle.std.specs.Prelude.{◌≡◌, ◌++◌, ◌≤◌, length, drop};
ghost use Rattle.census.specs.Input.{Within};
ghost use Rattle.census_text.specs.Census.{program_text};

use std::io;
use std::io::{Read, Stdin, Stdout, Write};

const SLOTS: usize = 5461;

const SLOT_WIDTH: usize = 12;

// A free slot is twelve of them.
const FREE: u8 = 255;

// The longest input that is read, and a byte more, by which a longer one is told.
const INPUT_ROOM: usize = 65537;

// No text is longer.
const TEXT_ROOM: usize = 128;

// Fills the space from standard input, to its end or to the space's, and tells how far.
fn fill(input: &mut Stdin, space: &mut [u8]) -> io::Result<usize>
    ensures { Within (length space.new) result }
{
    let mut done = 0;
    // bytes that a read gave are counted, and no index
    while done < space.len() {
        let more = input.read(&mut space[done..])?;
        if more == 0 {
            break;
        }
        done += more;
    }
    Ok(done)
}

// The program's text for an input, at the beginning of `text`; gives back how many bytes it has.
fn answer(input: &[u8], text: &mut [u8; TEXT_ROOM]) -> usize
    ensures value { (result ≡ length (program_text input.now)) × (result ≤ 128) }
    ensures text_after { text.new ≡ program_text input.now ++ drop result text.old }
{
    let mut table = [FREE; SLOTS * SLOT_WIDTH];
    let mut scratch = [FREE; SLOTS * SLOT_WIDTH];
    let census = census_text::census(input, &mut table, &mut scratch, text);
    census.written as usize
}

// Writes the first n bytes of a text. Whether they arrive no one asks: the status is 0 in every case.
fn print(output: &mut Stdout, text: &[u8], n: usize) {
    if let Some(written) = text.get(..n) {
        let _ = output.write_all(written);
    }
}

// Writes the text for the first n bytes of the space.
fn report(output: &mut Stdout, space: &[u8], n: usize) {
    if let Some(input) = space.get(..n) {
        let mut text = [0u8; TEXT_ROOM];
        let written = answer(input, &mut text);
        print(output, &text, written);
    }
}

fn main(rt: HostRuntime) {
    let mut room = [0u8; INPUT_ROOM];
    let space: &mut [u8] = &mut room;
    if let Ok(n) = fill(&mut rt.stdin(), space) {
        report(&mut rt.stdout(), space, n);
    }
}
