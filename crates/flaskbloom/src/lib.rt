// The C interface: the calls under the names of include/flaskbloom.h, thin over the crates that have them.
//
// A pointer and its length are a slice; point[3], points[19] and an out-parameter are a reference. Each promise settles the number that is
// returned and every lent byte and number afterwards, by the definition that the call's own promise cites; no call has a `requires`.
// The header is the manual. points.rt has the calls that give points, meshes.rt those that make and
// change a table, files.rt those that write one, read one, count one or salvage one, vertices.rt those without any table; numbers.rt puts points and
// records in a row, outcomes.rt makes a number of what a call came to.
#![tactic(auto)]

mod files;
mod meshes;
mod numbers;
mod outcomes;
mod points;
mod vertices;
