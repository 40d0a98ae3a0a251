// What is written of a finding: its normalised point or a question mark, its number, its note. Lines are written from their end back.
ghost use Rattle.std.specs.Prelude.{◌≡◌, List, ℕ, ◌≤◌, length};
ghost use Rattle.laws.specs.Stores.{Wrote};
ghost use Rattle.findings.specs.Findings.{point_of, tail_text, stands_text, lost_text};
ghost use Rattle.findings.specs.EntryLaws.{InList};

use crate::line::Finding;
use lattice::{Point, normalise};
use text::{TAB, number_back, point_back, point_length, width, write_bytes};

const QUESTION: u8 = b'?';

// The point of a finding, however it is spelled.
pub fn point_of(f: Finding) -> Point
    ensures { result ≡ point_of f }
{
    let p = f.at;
    normalise(p.a, p.b, p.m.0)
}

// How many bytes the number and the note of a list's finding have, each with the byte that ends it.
fn tail_length(f: Finding) -> usize
    requires { (l : List ℕ) × InList l f }
    ensures by_index { (l : List ℕ) → InList l f → result ≡ length (tail_text l f) }
    ensures upper_bound { result ≤ 88 }
{
    width(f.number) + 1 + (f.next - f.note)
}

// How many bytes the line of a finding on the plan has.
pub fn stands_length(f: Finding) -> usize
    requires { (l : List ℕ) × InList l f }
    ensures { (l : List ℕ) → InList l f → result ≡ length (stands_text l f) }
{
    point_length(point_of(f)) + tail_length(f)
}

// How many bytes the line of a lost finding has.
pub fn lost_length(f: Finding) -> usize
    requires { (l : List ℕ) × InList l f }
    ensures { (l : List ℕ) → InList l f → result ≡ length (lost_text l f) }
{
    2 + tail_length(f)
}

// Writes a finding's number and note before a position, and gives the position of the number.
fn tail_back(out: &mut [u8], end: usize, list: &[u8], f: Finding) -> usize
    requires { InList list.now f × ((length (tail_text list.now f) ≤ end) × (end ≤ length out.old)) }
    ensures { Wrote out.old result (tail_text list.now f) out.new end }
{
    let number = f.number;
    let from = f.note;
    let to = f.next;
    let at = end - (to - from);
    write_bytes(out, at, &list[from..to]);
    number_back(out, at, number, TAB)
}

// Writes the line of a finding on the plan before a position, and gives the position where it begins.
pub fn write_stands(out: &mut [u8], end: usize, list: &[u8], f: Finding) -> usize
    requires { InList list.now f × ((length (stands_text list.now f) ≤ end) × (end ≤ length out.old)) }
    ensures { Wrote out.old result (stands_text list.now f) out.new end }
{
    let past = tail_back(out, end, list, f);
    point_back(out, past, point_of(f))
}

// Writes the line of a lost finding before a position, and gives the position where it begins.
pub fn write_lost(out: &mut [u8], end: usize, list: &[u8], f: Finding) -> usize
    requires { InList list.now f × ((length (lost_text list.now f) ≤ end) × (end ≤ length out.old)) }
    ensures { Wrote out.old result (lost_text list.now f) out.new end }
{
    let past = tail_back(out, end, list, f);
    let at = past - 2;
    out[at] = QUESTION;
    out[at + 1] = TAB;
    at
}
