// The audit's walks over the tiles, each against its definition in the machine: whether they are tiles, and whether their flags are right.
// The walk over the lists between the two stands in the crate audit. Assumes nothing.
#![tactic(auto)]

mod marks; // marks.rt: what the audit notes of a chunk
mod tiles; // tiles.rt: the tile loop
mod flags; // flags.rt: the flag loop

pub use flags::flag_fault;
pub use marks::{BINNED, STACKED, UNMARKED, UNMET};
pub use tiles::tile_fault;
