// The steps of grant that look for a chunk in the bins, 6 and 7. Assumes nothing.
#![tactic(auto)]

mod step_6; // step_6.rt: the own bin
mod step_7; // step_7.rt: the bins above

pub use step_6::step6;
pub use step_7::step7;
