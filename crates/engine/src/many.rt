// Many vertices with one judgement of the lists, ours: a row of six numbers each.
ghost use Rattle.std.specs.Prelude.{◌≡◌, true, ◌+◌, ◌*◌, ◌≤◌, length};
ghost use Rattle.std.proofs.lemmas.List.Edits.{sets};
ghost use Rattle.lattice.specs.Refusals.{number_told};
ghost use Rattle.growth.specs.Sheets.{CentreSet};
ghost use Rattle.centres.specs.Marks.{in_marks};
ghost use Rattle.engine.specs.Engine.{pairs_in, judged_to};
ghost use Rattle.engine.specs.Many.{record_row, row_width, rows_in, vertices_of};
ghost use Rattle.engine.specs.ManyLaws.{row_record};

use crate::judge::judge;
use crate::pairs::is_byte;
use crate::records::record_at;
use centres::MARK_BYTES;
use lattice::{Record, Refusal, blank, normalise};

// The numbers of a record's row.
const ROW_WIDTH: usize = 6;

// The record at triple i of a list of points, all zeros where there is none.
fn triple_record(marks: &[u8; MARK_BYTES], pairs: &[i32], points: &[i32], i: usize) -> Record
    requires i_in_bounds { 3 * i + 3 ≤ length points.now }
    requires centre_set { CentreSet (in_marks marks.now) }
    requires pairs_value { judged_to (in_marks marks.now) pairs.now (pairs_in pairs.now) ≡ true }
    ensures { result ≡ row_record (in_marks marks.now) pairs.now points.now i }
{
    let a = points[3 * i];
    let b = points[3 * i + 1];
    let m = points[3 * i + 2];
    if !is_byte(m) {
        return blank();
    }
    record_at(marks, pairs, pairs.len() / 4, normalise(a, b, m as u8)).unwrap_or(blank())
}

// Puts row i.
fn put_record(records: &mut [i32], i: usize, r: Record)
    requires { row_width * i + row_width ≤ length records.old }
    ensures { records.new ≡ sets records.old (row_width * i) (record_row r) }
{
    let at = ROW_WIDTH * i;
    let a = r.at.a;
    let b = r.at.b;
    let m = r.at.m.0 as i32;
    let d = r.d as i32;
    let k = r.k as i32;
    let n = r.n.0 as i32;
    records[at] = a;
    records[at + 1] = b;
    records[at + 2] = m;
    records[at + 3] = d;
    records[at + 4] = k;
    records[at + 5] = n;
}

// Puts the rows of the first `count` triples.
fn put_records(
    marks: &[u8; MARK_BYTES],
    pairs: &[i32],
    points: &[i32],
    count: usize,
    records: &mut [i32],
)
    requires count_in_bounds { 3 * count ≤ length points.now }
    requires count_in_bounds_2 { row_width * count ≤ length records.old }
    requires centre_set { CentreSet (in_marks marks.now) }
    requires pairs_value { judged_to (in_marks marks.now) pairs.now (pairs_in pairs.now) ≡ true }
    ensures { records.new
        ≡ rows_in (row_record (in_marks marks.now) pairs.now points.now) records.old count }
{
    for i in 0..count {
        let r = triple_record(marks, pairs, points, i);
        put_record(records, i, r);
    }
}

// The records at the points a, b, m, a, b, m, .., six numbers each, all zeros where `vertex` would answer 3 or m is no byte: 2, 21, 13 where there is no
// room for six numbers a triple. Refused, nothing is written; numbers past the last whole triple are not read.
pub fn vertices(
    centres: &[i32],
    pairs: &[i32],
    points: &[i32],
    records: &mut [i32],
) -> Result<(), Refusal>
    ensures value { number_told result ≡ (vertices_of centres.now pairs.now points.now records.old).number }
    ensures records_after { records.new ≡ (vertices_of centres.now pairs.now points.now records.old).rows }
{
    let mut marks = [0; MARK_BYTES];
    judge(centres, pairs, &mut marks)?;
    let count = points.len() / 3;
    if records.len() / ROW_WIDTH < count {
        return Err(Refusal::Short);
    }
    put_records(&marks, pairs, points, count, records);
    Ok(())
}
