// The picture of a heap as SVG: a rectangle for each tile in one strip, where an offset is a place and a size a width; the strip shown in rows, with the
// offsets beside them; the place of the fault; and the free room's figures. Assumes nothing.
#![tactic(auto)]

mod figures; // figures.rt: how many chunks and bytes are live, cached, fast, binned
mod rows; // rows.rt: the rows that show the strip, and the place of a fault
mod legend; // legend.rt: the figures in words
mod picture; // picture.rt: the whole

pub use picture::put_svg;
