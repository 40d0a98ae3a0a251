// A vertex of any degree brought to degree 6 on a lent table: document 02, ticket 4, "Refine here, whatever the degree".
//
// One public call answers every table and request: `bring`. locate.rt has the search; chain.rt the two functions that call each other, `bring_to_six`
// and `subdivide_neighbour`; calls.rt the request, all or nothing. The promise cites `bring_to_six` of specs/Bring.
#![tactic(auto)]

mod calls;
mod chain;
mod locate;

pub use calls::bring;
