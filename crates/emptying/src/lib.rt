// Emptying: each cache list from its head, each chunk released past the cache. Assumes nothing.
#![tactic(auto)]

ghost use Rattle.std.specs.Prelude.{◌<◌};
ghost use Rattle.le.specs.Arena.{arena_words};
ghost use Rattle.machine.specs.Primitives.{take_cache};
ghost use Rattle.machine.specs.Release.{release_past, emptying};
ghost use Rattle.sound.specs.Relation.{Good};
ghost use Rattle.primitives.specs.Follow.{Has, Does};
ghost use Rattle.consolidate.specs.Drain.{drain_of};

use primitives::take_cache;
use release::release_past;
use sizes::{CACHE_HEADS, CACHE_LISTS, NONE32};

// Cache list k is emptied from its head, each chunk released past the cache.
fn drain_cache(a: &mut [u8], r: &mut [u32], k: usize)
    requires { (k < 64) × Has Good (arena_words a.old) r.old }
    ensures { Does (Unit {0}) Good (drain_of take_cache release_past k) (arena_words a.old) r.old tt (arena_words a.new) r.new }
{
    while r[CACHE_HEADS + k] != NONE32 {
        let c = take_cache(a, r, k);
        release_past(a, r, c);
    }
}

pub fn emptying(a: &mut [u8], r: &mut [u32])
    requires { Has Good (arena_words a.old) r.old }
    ensures { Does (Unit {0}) Good emptying (arena_words a.old) r.old tt (arena_words a.new) r.new }
{
    for k in 0..CACHE_LISTS {
        drain_cache(a, r, k);
    }
}
