// The lines of an old file: document 02, ticket 12.
//
// line.rt takes a line apart: parsed, normalised, and kept where it is then a valid record. rounds.rt judges number 20, one point with two different records,
// over the whole file, whatever room the table has. The promises cite specs/OldLines; `piece_at`, `gather` and `has_clash` are for the floor above.
#![tactic(auto)]

mod line;
mod rounds;

pub use line::{Piece, piece_at};
pub use rounds::{Gathered, gather, has_clash};
