// Document 01's queries: the neighbours of a vertex, and the faces round it.
//
// Two public calls answer every input and change no byte of the table: `neighbours` and `faces`. Both answer as `star` does, with the numbers 1, 3,
// 14 and 7 in that order. The in-order test reads the whole table at each call. After it come at most 19 searches: the vertex, six adjacent points,
// two opposites at each of six corners. `chosen`, the opposite of one corner in a table in order, is for the floors above.
// The promises of the three cite specs/: Queries.
#![tactic(auto)]

mod answers;
mod many;
mod opposites;

pub use answers::{faces, neighbours};
pub use many::{faces_all, neighbours_all};
pub use opposites::chosen;
