// The numbers of vertices in a viewer's file, which run from 0 in full-file order: document 02, ticket 5.
//
// The floor above takes a vertex's number from `number_near`, which tries a guess and else searches the sorted keys; `put_guesses` stores the guesses, by
// slot, where `base_of` finds room, and `guess` reads one. Before any byte is written `widths_of` and `number_width` tell how many digits a number has.
// The promises cite specs/: Numbering, Ranks, Guesses.
#![tactic(auto)]

mod guesses;
mod numbers;

pub use guesses::{KEY_WIDTH, base_of, guess, put_guesses};
pub use numbers::{PLACES, Widths, number_near, number_width, widths_of};
