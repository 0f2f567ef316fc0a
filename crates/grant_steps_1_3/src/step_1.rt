// Step 1 of grant: the head of the cache list.
ghost use Rattle.std.specs.Prelude.{Option, ℕ};
ghost use Rattle.le.specs.Arena.{arena_words};
ghost use Rattle.machine.specs.Grant.{step1};
ghost use Rattle.sound.specs.Relation.{Good};
ghost use Rattle.primitives.specs.Follow.{Has, Does};

use primitives::take_cache;
use sizes::{CACHE_HEADS, MOST_CACHED, NONE32, Size};

pub fn step1(a: &mut [u8], r: &mut [u32], b: Size) -> Option<u32>
    requires { Has Good (arena_words a.old) r.old }
    ensures { Does (Option ℕ) Good (step1 b.bytes) (arena_words a.old) r.old result (arena_words a.new) r.new }
{
    if MOST_CACHED < b.bytes {
        return None;
    }
    let k = sizes::cache_list(b.bytes);
    if r[CACHE_HEADS + k] == NONE32 {
        return None;
    }
    let c = take_cache(a, r, k);
    Some(c.0 as u32)
}
