// Many queries at once, ours: one test of the table, then each point answered as the single call would.
ghost use Rattle.std.specs.Prelude.{◌≡◌, true, ◌∷◌, ◌+◌, ◌*◌, ◌≤◌, pos, length};
ghost use Rattle.std.proofs.lemmas.List.Edits.{sets};
ghost use Rattle.lattice.specs.Refusals.{number_told};
ghost use Rattle.table.specs.Slots.{Table};
ghost use Rattle.table.specs.Order.{in_order_of};
ghost use Rattle.queries.specs.Queries.{query_of};
ghost use Rattle.queries.specs.Asked.{answer_at};
ghost use Rattle.queries.specs.Many.{answer_width, triple_of, all_of, neighbours_all_of, faces_all_of};
ghost use Rattle.queries.specs.ManyLaws.{answers_in, triple_slot};

use crate::answers::{Query, answer_in_slot};
use lattice::{ANSWER_NUMBERS, Refusal, number_told};
use table::{in_order, slot_by_guess, slots_of};

// The numbers of an answer among many: its number, its count, its six points.
const ANSWER_WIDTH: usize = 20;

// The slot of the record at triple i of a list, n where there is none, as `slot_found` has it. The slot guessed is asked first.
fn triple_slot(t: &[u8], points: &[i32], i: usize, n: usize, guess: usize) -> usize
    requires i_in_bounds { 3 * i + 3 ≤ length points.now }
    requires table { Table t.now n }
    requires t_value { in_order_of t.now ≡ true }
    ensures { result ≡ triple_slot t.now n points.now i }
{
    let Ok(m) = u8::try_from(points[3 * i + 2]) else {
        return n;
    };
    slot_by_guess(t, points[3 * i], points[3 * i + 1], m, n, guess)
}

// Puts answer i: its number, then its row.
fn put_answer(answers: &mut [i32], i: usize, number: u8, row: &[i32; ANSWER_NUMBERS])
    requires answer_width_in_bounds { answer_width * i + answer_width ≤ length answers.old }
    requires row_len { length row.now ≡ 19 }
    ensures { answers.new ≡ sets answers.old (answer_width * i) (pos number ∷ row.now) }
{
    let at = ANSWER_WIDTH * i;
    answers[at] = i32::from(number);
    answers[at + 1..at + ANSWER_WIDTH].copy_from_slice(row);
}

// Puts the answers to the first `count` triples of a list. Each is looked for first in the slot after that of the one before, where it mostly stands in a
// list made of the table's own records.
fn answer_each(q: Query, t: &[u8], points: &[i32], count: usize, n: usize, answers: &mut [i32])
    requires count_in_bounds { 3 * count ≤ length points.now }
    requires count_in_bounds_2 { answer_width * count ≤ length answers.old }
    requires table { Table t.now n }
    requires t_value { in_order_of t.now ≡ true }
    ensures { answers.new
        ≡ answers_in (triple_of (query_of (answer_at q t.now) t.now) points.now) answers.old count }
{
    let mut row = [0; ANSWER_NUMBERS];
    let mut guess = 0;
    for i in 0..count {
        let slot = triple_slot(t, points, i, n, guess);
        let number = number_told(answer_in_slot(q, t, slot, n, &mut row));
        put_answer(answers, i, number, &row);
        guess = slot + 1;
    }
}

// The answers to a list of points in any bytes.
fn answer_all(q: Query, t: &[u8], points: &[i32], answers: &mut [i32]) -> Result<(), Refusal>
    ensures value { number_told result ≡ (all_of (query_of (answer_at q t.now) t.now) t.now points.now answers.old).number }
    ensures answers_after { answers.new
        ≡ (all_of (query_of (answer_at q t.now) t.now) t.now points.now answers.old).answers }
{
    if !in_order(t) {
        return Err(Refusal::NotInOrder);
    }
    let count = points.len() / 3;
    if answers.len() / ANSWER_WIDTH < count {
        return Err(Refusal::Short);
    }
    let n = slots_of(t);
    answer_each(q, t, points, count, n, answers);
    Ok(())
}

// What `neighbours` answers for each of the points a, b, m, a, b, m, ..: twenty numbers each, its number and its row. 1: the table is not in order;
// 13: there is no room for twenty numbers a triple. A triple whose m is no byte is answered 3; numbers past the last whole triple are not read.
pub fn neighbours_all(table: &[u8], points: &[i32], answers: &mut [i32]) -> Result<(), Refusal>
    ensures value { number_told result ≡ (neighbours_all_of table.now points.now answers.old).number }
    ensures answers_after { answers.new ≡ (neighbours_all_of table.now points.now answers.old).answers }
{
    answer_all(Query::Neighbours, table, points, answers)
}

// The same of `faces`.
pub fn faces_all(table: &[u8], points: &[i32], answers: &mut [i32]) -> Result<(), Refusal>
    ensures value { number_told result ≡ (faces_all_of table.now points.now answers.old).number }
    ensures answers_after { answers.new ≡ (faces_all_of table.now points.now answers.old).answers }
{
    answer_all(Query::Faces, table, points, answers)
}
