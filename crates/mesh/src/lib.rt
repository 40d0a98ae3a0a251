// Subdivision of vertices on a lent table: document 01, "Subdivision of v".
//
// Two public calls answer every table and request: `subdivide`, and `subdivide_all`, which is ours: a list of points with one test of the table.
// `subdivide_at` and `subdivide_vertex` serve the floors above, where the table is known to be in order and its free slots are counted: at a point, and
// of a vertex whose slot is found.
// checks.rt decides 7 and keeps the slots that its searches met; writes.rt makes the table after: the centre and the old vertices at those
// slots, the new ones by searches that go on from them. The promises cite specs/Subdivide.
#![tactic(auto)]

mod calls;
mod checks;
mod writes;

pub use calls::{subdivide, subdivide_all, subdivide_at, subdivide_vertex};
