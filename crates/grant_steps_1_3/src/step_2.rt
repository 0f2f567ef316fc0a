// Step 2 of grant: the head of the fast list; then heads move from there to the cache.
ghost use Rattle.std.specs.Prelude.{◌≤◌, Option, ℕ};
ghost use Rattle.le.specs.Arena.{arena_words};
ghost use Rattle.machine.specs.Grant.{step2};
ghost use Rattle.sound.specs.Relation.{Good};
ghost use Rattle.primitives.specs.Follow.{Has, Does};
ghost use Rattle.grant_steps_1_3.specs.Moves.{move_heads};

use primitives::{push_cache, take_fast};
use sizes::{CACHE_COUNTS, CACHE_ROOM, FAST_HEADS, MOST_FAST, NONE32, Size};

// Heads of the fast list of b move to the cache until that has 7 or the list is empty.
// Kept: apart from move_lasts of step 3, since what is taken, from which end, and the P set behind it differ (d).
fn move_fast(a: &mut [u8], r: &mut [u32], b: Size)
    requires { (b.bytes ≤ 128) × Has Good (arena_words a.old) r.old }
    ensures { Does (Unit {0}) Good (move_heads b.bytes) (arena_words a.old) r.old tt (arena_words a.new) r.new }
{
    let f = sizes::fast_list(b.bytes);
    let k = sizes::cache_list(b.bytes);
    while r[FAST_HEADS + f] != NONE32 {
        if CACHE_ROOM <= r[CACHE_COUNTS + k] {
            return;
        }
        let c = take_fast(a, r, f);
        push_cache(a, r, k, c);
    }
}

pub fn step2(a: &mut [u8], r: &mut [u32], b: Size) -> Option<u32>
    requires { Has Good (arena_words a.old) r.old }
    ensures { Does (Option ℕ) Good (step2 b.bytes) (arena_words a.old) r.old result (arena_words a.new) r.new }
{
    if MOST_FAST < b.bytes {
        return None;
    }
    let f = sizes::fast_list(b.bytes);
    if r[FAST_HEADS + f] == NONE32 {
        return None;
    }
    let c = take_fast(a, r, f);
    move_fast(a, r, b);
    Some(c.0 as u32)
}
