// The two ways of writing 'none': a link of the arena has 64 bits, a word of the record 32. No other line goes from one to the other.
ghost use Rattle.std.specs.Prelude.{◌≡◌, ◌<◌, ◌^◌};
ghost use Rattle.machine.specs.View.{up};
ghost use Rattle.chunk_fields.specs.Links.{down};

use crate::Link;
use sizes::{NONE32, NONE64};

// A word of the record as a link of the arena.
pub fn link_of(v: u32) -> Link
    ensures { result.0 ≡ up v }
{
    if v == NONE32 {
        return Link(NONE64);
    }
    Link(u64::from(v))
}

// A link of the arena as a word of the record.
pub fn word_of(x: Link) -> u32
    requires { down x.0 < 2 ^ 32 }
    ensures { result ≡ down x.0 }
{
    if x.0 == NONE64 {
        return NONE32;
    }
    x.0 as u32
}
