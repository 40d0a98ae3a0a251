// Exact points of the plane and the stars round them, usable without any mesh: document 01, "Points", "Records", "The twelve
// directions", and "Subdivision" record by record.
//
// Two public calls answer every input: `normalise` and `star`. The other functions serve the proved floors above and ask for bounds.
// The promises cite specs/: Points, Records, Patterns, Stars, Subdivision, and Ranks for the model of grown meshes; what is asked of bounds is in Bounds
// and RecordLaws.
#![tactic(auto)]

mod arms;
mod patterns;
mod points;
mod ranks;
mod records;
mod refusals;
mod rows;
mod stars;
mod updates;

pub use arms::{far_arm, first_arm, near_arm, next_arm, regular};
pub use patterns::foremost;
pub use points::{Depth, Point, Terms, added, both3, normalise, power, same_point, turn60};
pub use ranks::{birth, class, moved, parent, rank};
pub use records::{Level, Record, blank, size, valid};
pub use refusals::{DONE, Fault, Refusal, Stopped, number_told};
pub use rows::{ANSWER_NUMBERS, point_at, put_point, refuse_answer, refuse_row};
pub use stars::{Answer, adjacent_of, first_of, ring, second_of, star};
pub use updates::{accepts, back, born, centre, updated};
