// A vertex's record without any table: document 02, ticket 13, "A plain second engine".
//
// From a base and the list of what was subdivided, in the order made, the record of a vertex is worked out by one scan of the list; the list is judged
// first, by a scan of the earlier pairs for each. The promises cite specs/Engine; that the answers are the tables' is crate agreed.
#![tactic(auto)]

mod calls;
mod ground;
mod judge;
mod many;
mod pairs;
mod records;

pub use calls::vertex;
pub use many::vertices;
