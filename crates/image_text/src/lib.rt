// What heapimage prints: the image's version and length, the audit's answer, and a line for each tile, or its rectangle for a picture. Each function adds to a
// page. Assumes nothing.
#![tactic(auto)]

mod words; // words.rt: the audit's answer, a chunk's state
mod forms; // forms.rt: a tile as a line, or as a rectangle
mod tiles; // tiles.rt: all tiles
mod whole; // whole.rt: a heap, and a file

pub use audit_reached::tiled;
pub use image::length_in;
pub use whole::{put_head, put_image, put_reached};
pub use words::{put_audit, put_list};

// How a tile is shown: as a line of text, or as a rectangle of a picture.
#[derive(Clone, Copy)]
pub enum Form {
    Lines,
    Rects,
}

// What is told of a tile: that it is the top, or by its mark the list that reaches it.
#[derive(Clone, Copy)]
pub(crate) enum State {
    Top,
    Marked(u8),
}
