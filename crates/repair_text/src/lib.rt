// What heapmend prints, a line for each number of record and arena that a repair changed, and the image of what it leaves. Each function writes in lent buffers.
// Assumes nothing.
#![tactic(auto)]

mod changes; // changes.rt: the lines
mod whole; // whole.rt: a heap that was read, and a file

pub use whole::mend_file;

// How many bytes of its two lent buffers the mending of a file fills: with lines, and with the image, of which there is none where the file is refused.
#[derive(Clone, Copy)]
pub struct Mend {
    pub lines: usize,
    pub image: usize,
}
