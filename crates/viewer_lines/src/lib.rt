// The lines of a viewer's file, OFF or OBJ: document 02, ticket 5. What the two formats share is over a style (styles.rt).
//
// The floor above calls `head_length`, `vertices_length` (lines.rt) and `faces_length` (lengths.rt) for how long the file is, before any byte is written;
// `put_vertices` stores the vertices' keys, `least_first` and `pack` make a face's key of its `Corners` (corners.rt); `write_head`, `write_vertices` and
// `write_faces` write the lines of sorted keys from the last back, `keys_length` tells how long those of faces are (lines.rt).
// The promises cite specs/: ViewerLines, Packed, Lines.
#![tactic(auto)]

mod corners;
mod lengths;
mod lines;
mod styles;

pub use corners::{Corners, least_first, pack};
pub use lengths::faces_length;
pub use lines::{
    head_length, keys_length, put_vertices, vertices_length, write_faces, write_head,
    write_vertices,
};
pub use styles::Style;
