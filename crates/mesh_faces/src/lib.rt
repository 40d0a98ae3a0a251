// The faces of a mesh, each once, at the first vertex that has it in the order of slots; and which vertex has a torn faces query.
//
// For the viewer's files: fresh.rt takes the face of a corner where no earlier vertex has it, torn.rt tells where 7 comes from.
// The promises cite specs/: MeshFaces, Once.
#![tactic(auto)]

mod fresh;
mod torn;

pub use fresh::{Fresh, fresh_at, fresh_between};
pub use torn::any_torn;
