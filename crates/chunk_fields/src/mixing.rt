// Links as an edition stores them: the one reader and the one writer of the forward link of a chunk in a cache or fast list, and the record's edition.
// Assumes nothing.
ghost use Rattle.std.specs.Prelude.{◌≡◌, ◌+◌, ◌%◌, ◌≤◌, length, get_or};
ghost use Rattle.le.specs.Arena.{arena_words};
ghost use Rattle.sizes.specs.Layout.{fwd_word};
ghost use Rattle.machine.specs.Mixing.{stored};
ghost use Rattle.machine.specs.Writes.{link, put};
ghost use Rattle.machine.specs.View.{edition_in};

use crate::{Link, fwd_at, set_fwd};
use sizes::{Chunk, EDITION, MIXED};

// A link is mixed with its own position, in pages.
const PAGE: u64 = 4096;

// The link x of the chunk c as edition d stores it, and as it is read.
fn stored(d: u32, c: Chunk, x: Link) -> Link
    requires { c.0 + 16 ≤ 262144 }
    ensures { result.0 ≡ stored d c.0 x.0 }
{
    if d == MIXED {
        return Link(((c.0 + 16) / PAGE) ^ x.0);
    }
    x
}

pub fn edition_in(r: &[u32]) -> u32
    requires { length r.now ≡ 396 }
    ensures { result ≡ edition_in r.now }
{
    r[EDITION]
}

pub fn stack_link_at(a: &[u8], d: u32, c: Chunk) -> Link
    requires { (c.0 % 8 ≡ 0) × (c.0 + 24 ≤ length a.now) × (c.0 + 16 ≤ 262144) }
    ensures { result.0 ≡ stored d c.0 (get_or (arena_words a.now) (fwd_word c.0) 0) }
{
    let x = fwd_at(a, c);
    stored(d, c, x)
}

pub fn set_stack_link(a: &mut [u8], d: u32, c: Chunk, x: Link)
    requires { (c.0 % 8 ≡ 0) × (c.0 + 24 ≤ length a.old) × (c.0 + 16 ≤ 262144) }
    ensures { arena_words a.new ≡ put (link c.0 (stored d c.0 x.0)) (arena_words a.old) }
{
    let y = stored(d, c, x);
    set_fwd(a, c, y);
}
