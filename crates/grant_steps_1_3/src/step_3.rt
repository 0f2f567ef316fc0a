// Step 3 of grant: the last of the small bin; then lasts move from there to the cache.
ghost use Rattle.std.specs.Prelude.{◌≡◌, ◌<◌, Option, ℕ};
ghost use Rattle.le.specs.Arena.{arena_words};
ghost use Rattle.sizes.specs.Sizes.{bin_of};
ghost use Rattle.machine.specs.Grant.{take_last, step3};
ghost use Rattle.sound.specs.Relation.{Good};
ghost use Rattle.primitives.specs.Follow.{Has, Does};
ghost use Rattle.grant_steps_1_3.specs.Moves.{move_rest, Last};

use primitives::{push_cache, set_p, unlink};
use sizes::{CACHE_COUNTS, CACHE_ROOM, Chunk, LARGE, NONE32, Size};

// c, which bin j, the small bin of b, has, leaves it, and the next chunk's P is set.
fn take_last(a: &mut [u8], r: &mut [u32], j: usize, c: Chunk, b: Size)
    requires { (b.bytes < 1024) × Has (λ h. Last h b.bytes c.0) (arena_words a.old) r.old × (j ≡ bin_of b.bytes) }
    ensures { Does (Unit {0}) (λ h. Last h b.bytes c.0) (take_last (bin_of b.bytes) c.0) (arena_words a.old) r.old tt (arena_words a.new) r.new }
{
    unlink(a, r, j, c);
    set_p(a, Chunk(c.0 + b.bytes));
}

// Lasts of bin j, the small bin of b, move to the cache until that has 7 or the bin is empty.
fn move_lasts(a: &mut [u8], r: &mut [u32], j: usize, b: Size)
    requires { (b.bytes < 1024) × Has Good (arena_words a.old) r.old × (j ≡ bin_of b.bytes) }
    ensures { Does (Unit {0}) Good (move_rest b.bytes) (arena_words a.old) r.old tt (arena_words a.new) r.new }
{
    let at = sizes::bin_last(j);
    let list = sizes::cache_list(b.bytes);
    while r[at] != NONE32 {
        if CACHE_ROOM <= r[CACHE_COUNTS + list] {
            return;
        }
        let c = Chunk(r[at] as u64);
        take_last(a, r, j, c, b);
        push_cache(a, r, list, c);
    }
}

pub fn step3(a: &mut [u8], r: &mut [u32], b: Size) -> Option<u32>
    requires { Has Good (arena_words a.old) r.old }
    ensures { Does (Option ℕ) Good (step3 b.bytes) (arena_words a.old) r.old result (arena_words a.new) r.new }
{
    if LARGE <= b.bytes {
        return None;
    }
    let j = sizes::bin_of(b.bytes);
    let c = r[sizes::bin_last(j)];
    if c == NONE32 {
        return None;
    }
    take_last(a, r, j, Chunk(c as u64), b);
    move_lasts(a, r, j, b);
    Some(c)
}
