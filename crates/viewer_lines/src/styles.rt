// The two formats: what they share takes a style.

// A head or none, `v` before a vertex or nothing, what stands before a face, and the first number.
#[derive(Clone, Copy)]
pub struct Style {
    pub head: bool,
    pub marked: bool,
    pub face: u8,
    pub first: u32,
}
