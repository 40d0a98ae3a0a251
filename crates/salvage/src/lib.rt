// Salvage of old files: document 02, ticket 12.
//
// One public call answers every table, scratch table, file and output: `salvage`. filling.rt and mending.rt are the reduced reader's work from sorted keys,
// judging.rt puts these and number 20 together, notes.rt and listing.rt write the list of changes, calls.rt is the call. The promises cite specs/Salvage.
#![tactic(auto)]

mod calls;
mod filling;
mod judging;
mod listing;
mod mending;
mod notes;

pub use calls::{Salvaged, salvage};
