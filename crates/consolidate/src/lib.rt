// Consolidate: each fast list emptied from its head, each chunk joined. Assumes nothing.
#![tactic(auto)]

ghost use Rattle.std.specs.Prelude.{◌≡◌, ◌==◌, ◌<◌, not, length};
ghost use Rattle.std.specs.List.{list_any};
ghost use Rattle.le.specs.Arena.{arena_words};
ghost use Rattle.machine.specs.Heap.{fast_at};
ghost use Rattle.machine.specs.Primitives.{pop};
ghost use Rattle.machine.specs.Release.{join, consolidate};
ghost use Rattle.sound.specs.Relation.{Good};
ghost use Rattle.primitives.specs.Follow.{Has, Does};
ghost use Rattle.consolidate.specs.Drain.{drain_of};
ghost use Rattle.consolidate.specs.AnyFast.{Told};

use primitives::take_fast;
use release_join::join;
use sizes::{FAST_HEADS, FAST_LISTS, NONE32};

// Fast list k is emptied from its head, each chunk joined.
// Kept: (d) one drain for this and emptying's drain_cache would take the head's place, two closures with contracts on arena and record, and a measure by the
// kind of list: longer than both loops of four lines. The proofs share specs/Drain.antt.
fn drain_fast(a: &mut [u8], r: &mut [u32], k: usize)
    requires { (k < 10) × Has Good (arena_words a.old) r.old }
    ensures { Does (Unit {0}) Good (drain_of pop join (fast_at k)) (arena_words a.old) r.old tt (arena_words a.new) r.new }
{
    while r[FAST_HEADS + k] != NONE32 {
        let c = take_fast(a, r, k);
        join(a, r, c);
    }
}

pub fn consolidate(a: &mut [u8], r: &mut [u32])
    requires { Has Good (arena_words a.old) r.old }
    ensures { Does (Unit {0}) Good consolidate (arena_words a.old) r.old tt (arena_words a.new) r.new }
{
    for k in 0..FAST_LISTS {
        drain_fast(a, r, k);
    }
}

// Whether one of these heads names a chunk.
fn any_some(heads: &[u32]) -> bool
    ensures { result ≡ list_any (λ x. not (x == NONE32)) heads.now }
{
    heads.iter().any(|head| *head != NONE32)
}

pub fn any_fast(r: &[u32]) -> bool
    requires { length r.now ≡ 396 }
    ensures { Told r.now result }
{
    any_some(&r[FAST_HEADS..FAST_HEADS + FAST_LISTS])
}
