// The worked example of docs/WORKED.md: three hexagons, the vertex between them subdivided twice, its two files, and the census of the plan and
// of what comes back from its reduced file.
#![tactic(auto)]

use lattice::Refusal;
use std::io::{Stdout, Write};

// 40 slots of 12 bytes.
const TABLE_BYTES: usize = 480;

const FILE_BYTES: usize = 1024;

const CENSUS_BYTES: usize = 128;

// Whether it arrives no one asks.
fn say(output: &mut Stdout, text: &[u8]) {
    let _ = output.write_all(text);
}

// The first n bytes, where there are so many.
fn show(output: &mut Stdout, bytes: &[u8], n: usize) {
    if let Some(part) = bytes.get(..n) {
        say(output, part);
    }
}

// The bytes of a file, none where it is refused.
fn bytes(file: Result<u64, Refusal>) -> usize {
    file.unwrap_or(0) as usize
}

// Lays the plan: the second subdivision names its vertex by another spelling. Nothing of it is refused.
fn lay(table: &mut [u8]) {
    let centres: [i32; 6] = [0, 0, 1, 1, 2, -1];
    let vertices: [i32; 6] = [1, 0, 0, 3, 0, 1];
    let _ = base::base(table, &centres);
    let _ = mesh::subdivide_all(table, &vertices);
}

// The census of a full file's first n bytes.
fn count(output: &mut Stdout, file: &[u8], n: usize) {
    let mut table = [255u8; TABLE_BYTES];
    let mut scratch = [255u8; TABLE_BYTES];
    let mut out = [0u8; CENSUS_BYTES];
    if let Some(input) = file.get(..n) {
        let c = census_text::census(input, &mut table, &mut scratch, &mut out);
        show(output, &out, c.written as usize);
    }
}

// The census of what the reduced file's first n bytes give back.
fn count_back(output: &mut Stdout, file: &[u8], n: usize) {
    let mut table = [255u8; TABLE_BYTES];
    let mut scratch = [255u8; TABLE_BYTES];
    let mut full = [0u8; FILE_BYTES];
    if let Some(reduced) = file.get(..n) {
        let _ = readers::read_reduced(&mut table, &mut scratch, reduced);
        let n = bytes(writers::write_full(&table, &mut full));
        count(output, &full, n);
    }
}

fn main(rt: HostRuntime) {
    let mut output = rt.stdout();
    let mut table = [255u8; TABLE_BYTES];
    let mut full = [0u8; FILE_BYTES];
    let mut reduced = [0u8; FILE_BYTES];
    lay(&mut table);
    let f = bytes(writers::write_full(&table, &mut full));
    let r = bytes(writers::write_reduced(&table, &mut reduced));
    say(&mut output, b"full file\n");
    show(&mut output, &full, f);
    say(&mut output, b"reduced file\n");
    show(&mut output, &reduced, r);
    say(&mut output, b"census of the plan\n");
    count(&mut output, &full, f);
    say(&mut output, b"census of what the reduced file gives back\n");
    count_back(&mut output, &reduced, r);
}
