// An image of version 1 or 2 is read: the bins get their skip links, which the rules of those versions do not ask for. Assumes nothing.
#![tactic(auto)]

ghost use Rattle.std.specs.Prelude.{◌≡◌};
ghost use Rattle.le.specs.Arena.{arena_words};
ghost use Rattle.sizes.specs.Limits.{unsorted};
ghost use Rattle.machine.specs.Heap.{Heap, bin, size_of};
ghost use Rattle.machine.specs.Writes.{apply};
ghost use Rattle.machine.specs.Skips.{all_put};
ghost use Rattle.primitives.specs.Linked.{Linked, HasLinks};
ghost use Rattle.image_skips.specs.Skips.{rings_from, skips_of};

use chunk_fields::{fwd_at, link_of, size_at};
use primitives::renew_ring;
use sizes::{Chunk, LARGE_BIN, LAST_BIN, NONE64, UNSORTED};
use skip_links::put_skips;

// All ones for each large chunk of unsorted.
fn write_puts(a: &mut [u8], r: &[u32])
    requires { HasLinks (λ h. Unit {0}) (arena_words a.old) r.now }
    ensures { (h : Heap) → Linked h (arena_words a.old) r.now
        → arena_words a.new ≡ apply (all_put (λ x. size_of h x) (bin h unsorted)) (arena_words a.old) }
{
    let at = sizes::bin_first(UNSORTED);
    let mut x = link_of(r[at]);
    while x.0 != NONE64 {
        let c = Chunk(x.0);
        let z = size_at(a, c);
        put_skips(a, c, z);
        x = fwd_at(a, c);
    }
}

// The rings of bins 64 to 126.
fn write_rings(a: &mut [u8], r: &[u32])
    requires { HasLinks (λ h. Unit {0}) (arena_words a.old) r.now }
    ensures { (h : Heap) → Linked h (arena_words a.old) r.now
        → arena_words a.new ≡ apply (rings_from 63 64 h) (arena_words a.old) }
{
    for j in LARGE_BIN..=LAST_BIN {
        renew_ring(a, r, j);
    }
}

pub fn write_skips(a: &mut [u8], r: &[u32])
    requires { HasLinks (λ h. Unit {0}) (arena_words a.old) r.now }
    ensures { (h : Heap) → Linked h (arena_words a.old) r.now
        → arena_words a.new ≡ apply (skips_of h) (arena_words a.old) }
{
    write_puts(a, r);
    write_rings(a, r);
}
