// The steps of grant that take a chunk as it stands, 1 to 3. Assumes nothing.
#![tactic(auto)]

mod step_1; // step_1.rt: the cache
mod step_2; // step_2.rt: the fast list
mod step_3; // step_3.rt: the small bin

pub use step_1::step1;
pub use step_2::step2;
pub use step_3::step3;
