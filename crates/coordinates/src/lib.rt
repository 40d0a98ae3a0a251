// Where a vertex lies, in decimal: document 02, ticket 5, for files that a viewer reads.
//
// near.rt has the whole numbers of ten-thousandths, texts.rt their text, written from its end back. The promises cite specs/Coordinates.
#![tactic(auto)]

mod near;
mod texts;

pub use texts::{BLANK, position_back, position_length};
