// The repair: a heap whose record and tiles are sound, mended in its lists and flags. Each list is walked up to its first bad chunk by the audit's own tests (crate
// audit_reached); what is reached is free, all else but the top is held. Linear in the arena. Assumes nothing.
#![tactic(auto)]

ghost use Rattle.std.specs.Prelude.{◌≡◌};
ghost use Rattle.repair.specs.RepairCall.{unmended_no};

mod anew; // anew.rt: the tiles and the record anew
mod put; // put.rt: what is free goes to unsorted
mod mend; // mend.rt: the repair of words, and of bytes

pub use mend::{repair, repair_by};

// Why a repair is refused, in the order in which it is tested: document 02's numbers 1 and 11.
#[derive(Clone, Copy)]
pub enum Unmended {
    Shape,
    Faulty,
}

impl Unmended {
    // The document's number.
    pub fn no(self) -> u32
        ensures { result ≡ unmended_no self }
    {
        match self {
            Unmended::Shape => 1,
            Unmended::Faulty => 11,
        }
    }
}
