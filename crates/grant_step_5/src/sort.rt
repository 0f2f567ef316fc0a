// Where a chunk goes that no list has, in document 01's step 5: into its bin, or, if it has the size that is asked for, to the cache or to the caller.
ghost use Rattle.std.specs.Prelude.{◌≡◌, ◌≤◌};
ghost use Rattle.le.specs.Arena.{arena_words};
ghost use Rattle.machine.specs.Heap.{size_of};
ghost use Rattle.machine.specs.Grant.{sort_in, keep};
ghost use Rattle.machine.specs.declared.{Turn.Turn};
ghost use Rattle.sound.specs.Relation.{Loose};
ghost use Rattle.primitives.specs.Follow.{Has, Does};
ghost use Rattle.grant_step_5.specs.Newcomer.{Goes};

use chunk_fields::{Link, fwd_at, link_of, size_at};
use machine::Turn;
use primitives::{cache_takes, link_in, push_cache, put_first};
use sizes::{Chunk, LARGE, NONE64, Size};

// The neighbours that a newcomer gets in a bin; NONE64 where there is none.
#[derive(Clone, Copy)]
pub struct Neighbours {
    pub p: Link,
    pub n: Link,
}

// Between which chunks of large bin j a newcomer of size z goes.
fn place(a: &[u8], r: &[u32], j: usize, z: u64) -> Neighbours
    requires { (1 ≤ j) × (j ≤ 126) × Has (λ h. Unit {0}) (arena_words a.now) r.now }
    ensures { Goes j z result.p.0 result.n.0 (arena_words a.now) r.now }
{
    let mut p = Link(NONE64);
    let mut n = link_of(r[sizes::bin_first(j)]);
    while n.0 != NONE64 {
        let x = Chunk(n.0);
        let s = size_at(a, x);
        if s < z {
            return Neighbours { p, n };
        }
        let after = fwd_at(a, x);
        if s == z {
            return Neighbours { p: n, n: after };
        }
        p = n;
        n = after;
    }
    Neighbours { p, n }
}

// c, of size z, which no list has, goes into its bin.
pub fn sort_in(a: &mut [u8], r: &mut [u32], c: Chunk, z: u64)
    requires { Has (λ h. Loose h c.0 × (size_of h c.0 ≡ z)) (arena_words a.old) r.old }
    ensures { Does (Unit {0}) (λ h. Loose h c.0 × (size_of h c.0 ≡ z)) (sort_in c.0) (arena_words a.old) r.old tt (arena_words a.new) r.new }
{
    let j = sizes::bin_of(z);
    if z < LARGE {
        put_first(a, r, j, c);
        return;
    }
    let g = place(a, r, j, z);
    let p = g.p;
    let n = g.n;
    link_in(a, r, j, c, p, n);
}

// c, of size b, which no list has, is cached if its cache list has room, else granted.
pub fn keep(a: &mut [u8], r: &mut [u32], c: Chunk, b: Size) -> Turn
    requires { Has (λ h. Loose h c.0) (arena_words a.old) r.old }
    ensures { Does Turn (λ h. Loose h c.0) (keep b.bytes c.0) (arena_words a.old) r.old result (arena_words a.new) r.new }
{
    if cache_takes(r, b.bytes) {
        push_cache(a, r, sizes::cache_list(b.bytes), c);
        return Turn::Cached;
    }
    Turn::Granted(c.0 as u32)
}
