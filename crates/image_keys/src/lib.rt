// An image of version 1 is read: the record's key goes into each cached chunk, which the rules of version 1 do not ask for. Assumes nothing.
#![tactic(auto)]

ghost use Rattle.std.specs.Prelude.{◌≡◌, ◌<◌};
ghost use Rattle.le.specs.Arena.{arena_words};
ghost use Rattle.machine.specs.Heap.{Heap, stack};
ghost use Rattle.machine.specs.Writes.{apply};
ghost use Rattle.sound.specs.Relation.{SoundBy};
ghost use Rattle.image_keys.specs.Keys.{keys_for, keys_of, Lacking};

use chunk_fields::{edition_in, key_in, link_of, set_key, stack_link_at};
use sizes::{CACHE_HEADS, CACHE_LISTS, Chunk, NONE64};

// The key q goes into each chunk of cache list k, from its head along the forward links, which are stored by the record's edition.
fn key_list(a: &mut [u8], r: &[u32], k: usize, q: u64)
    requires { (k < 64) × Lacking (arena_words a.old) r.now }
    ensures { (h : Heap) → SoundBy 1 h (arena_words a.old) r.now → arena_words a.new ≡ apply (keys_for q (stack h k)) (arena_words a.old) }
{
    let d = edition_in(r);
    let mut x = link_of(r[CACHE_HEADS + k]);
    while x.0 != NONE64 {
        let c = Chunk(x.0);
        let n = stack_link_at(a, d, c);
        set_key(a, c, q);
        x = n;
    }
}

pub fn write_keys(a: &mut [u8], r: &[u32])
    requires { Lacking (arena_words a.old) r.now }
    ensures { (h : Heap) → SoundBy 1 h (arena_words a.old) r.now → arena_words a.new ≡ apply (keys_of h) (arena_words a.old) }
{
    let q = key_in(r);
    for k in 0..CACHE_LISTS {
        key_list(a, r, k, q);
    }
}
