// Release: a chunk to the cache if that has room, and past the cache: to its fast list, or joined, after which the fast chunks may be joined too. Assumes nothing.
#![tactic(auto)]

ghost use Rattle.std.specs.Prelude.{ℕ};
ghost use Rattle.le.specs.Arena.{arena_words};
ghost use Rattle.machine.specs.Writes.{giving};
ghost use Rattle.machine.specs.Release.{release_past, release};
ghost use Rattle.sound.specs.Relation.{Good, Loose};
ghost use Rattle.record_words.specs.CacheOnly.{Changes};
ghost use Rattle.primitives.specs.Follow.{Has, Does};
ghost use Rattle.release.specs.Offers.{Comes};

use chunk_fields::size_at;
use consolidate::{any_fast, consolidate};
use primitives::{cache_takes, push_cache, push_fast};
use record_words::Changed;
use release_join::join;
use sizes::{CONSOLIDATE_FROM, Chunk, MOST_FAST};

// c, which no list has, goes past the cache. Answers the size that the joining yields, 0 where none is joined.
// Kept: 0 and no Option, as the definition `release_past` answers.
pub fn release_past(a: &mut [u8], r: &mut [u32], c: Chunk) -> u64
    requires { Has (λ h. Good h × Loose h c.0) (arena_words a.old) r.old }
    ensures { Does ℕ (λ h. Good h × Loose h c.0) (release_past c.0) (arena_words a.old) r.old result (arena_words a.new) r.new }
{
    let z = size_at(a, c);
    if z <= MOST_FAST {
        push_fast(a, r, sizes::fast_list(z), c);
        return 0;
    }
    let s = join(a, r, c);
    if s >= CONSOLIDATE_FROM && any_fast(r) {
        consolidate(a, r);
    }
    s
}

// c, which no list has, goes on the cache list of its size if that has room. Answers which list that is; none: there was no room and nothing was done.
fn to_cache(a: &mut [u8], r: &mut [u32], c: Chunk) -> Option<usize>
    requires { Has (λ h. Loose h c.0) (arena_words a.old) r.old }
    ensures { Comes c.0 result (arena_words a.old) r.old (arena_words a.new) r.new }
{
    let z = size_at(a, c);
    if cache_takes(r, z) {
        let k = sizes::cache_list(z);
        push_cache(a, r, k, c);
        return Some(k);
    }
    None
}

// c, which no list has, is released. Answers which of the record's words that changed.
pub fn release(a: &mut [u8], r: &mut [u32], c: Chunk) -> Changed
    requires { Has (λ h. Good h × Loose h c.0) (arena_words a.old) r.old }
    ensures does { Does (Unit {0}) (λ h. Good h × Loose h c.0) (λ h. giving tt (release c.0 h)) (arena_words a.old) r.old tt (arena_words a.new) r.new }
    ensures changes { Changes result r.old r.new }
{
    if let Some(k) = to_cache(a, r, c) {
        return Changed::CacheList(k);
    }
    release_past(a, r, c);
    Changed::Any
}
