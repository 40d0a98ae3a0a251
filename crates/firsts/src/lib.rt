// Where points stand, which of several vertices stands first, and whether an earlier one names a face.
//
// What is counted or written once is taken at the first vertex that has it, with no memory but a few words. The floors above call `with_slot`, `next_placed`
// and `slot_of` for where points stand, `earlier`, `inner_before` and `inners_before` for what stands before a slot (earlier.rt), `choose`, `next_place` and
// `spot_is` for a corner (choices.rt, faces.rt), and `face_seen` for its face, after `fits_of`: what the other vertices have of it is asked of their strides
// first (fits.rt, strides.rt).
// The promises cite specs/: Faces, Earlier, Strides, Choices.
#![tactic(auto)]

mod choices;
pub mod earlier;
mod faces;
mod fits;
mod strides;

pub use choices::{Opposite, choose};
pub use earlier::{Placed, inner_before, inners_before, next_placed, slot_of, with_slot};
pub use faces::{Face, face_seen, next_place, spot_is};
pub use fits::{Fits, fits_of};
