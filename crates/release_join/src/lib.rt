// Join: a chunk that is loose takes in its free neighbours, and becomes the top or goes first in unsorted.
#![tactic(auto)]

ghost use Rattle.std.specs.Prelude.{◌≡◌, ℕ};
ghost use Rattle.le.specs.Arena.{arena_words};
ghost use Rattle.machine.specs.Release.{absorb, join_next, put_down, join};
ghost use Rattle.machine.specs.View.{size_at};
ghost use Rattle.sound.specs.Relation.{Good, Loose};
ghost use Rattle.primitives.specs.Follow.{Has, Does};
ghost use Rattle.release_join.specs.States.{Taking, Open, join_rest};

use chunk_fields::{note_at, set_size, size_at, size_word_at};
use primitives::{clear_p, put_first, unlink_wherever};
use sizes::{Chunk, LENGTH_WORD, TOP_WORD, UNSORTED};

// x, of size zx, leaves its bin, and c takes in the chunk after it: s is the whole's size.
fn absorb(a: &mut [u8], r: &mut [u32], x: Chunk, zx: u64, c: Chunk, s: u64)
    requires { Has (λ h. Taking h x.0 zx c.0 s) (arena_words a.old) r.old }
    ensures { Does (Unit {0}) (λ h. Taking h x.0 zx c.0 s) (absorb x.0 c.0) (arena_words a.old) r.old tt (arena_words a.new) r.new × (size_at (arena_words a.new) c.0 ≡ s) }
{
    unlink_wherever(a, r, x, zx);
    set_size(a, c, s, true);
}

// The open chunk c, of size z, takes in the chunk after it if that is binned: the P behind that one says so.
// Answers c's size then.
fn join_next(a: &mut [u8], r: &mut [u32], c: Chunk, z: u64) -> u64
    requires { Has (λ h. Open h c.0) (arena_words a.old) r.old × (z ≡ size_at (arena_words a.old) c.0) }
    ensures { Does (Unit {0}) (λ h. Open h c.0) (join_next c.0) (arena_words a.old) r.old tt (arena_words a.new) r.new × (result ≡ size_at (arena_words a.new) c.0) }
{
    let n = Chunk(c.0 + z);
    if n.0 == r[TOP_WORD] as u64 {
        return z;
    }
    let zn = size_at(a, n);
    let behind = size_word_at(a, Chunk(n.0 + zn));
    if !behind.has_p() {
        let s = z + zn;
        absorb(a, r, n, zn, c, s);
        return s;
    }
    z
}

// The open chunk c, of size z, becomes the top, or goes first in unsorted. Answers the whole's size.
fn put_down(a: &mut [u8], r: &mut [u32], c: Chunk, z: u64) -> u64
    requires { Has (λ h. Open h c.0) (arena_words a.old) r.old × (z ≡ size_at (arena_words a.old) c.0) }
    ensures { Does ℕ (λ h. Open h c.0) (put_down c.0) (arena_words a.old) r.old result (arena_words a.new) r.new }
{
    let next = Chunk(c.0 + z);
    if next.0 == r[TOP_WORD] as u64 {
        let s = r[LENGTH_WORD] as u64 - c.0;
        set_size(a, c, s, true);
        r[TOP_WORD] = c.0 as u32;
        return s;
    }
    clear_p(a, next, z);
    put_first(a, r, UNSORTED, c);
    z
}

// The rest of a join, which is the same whether or not the chunk before was taken in: c, of size z, is open.
fn join_rest(a: &mut [u8], r: &mut [u32], c: Chunk, z: u64) -> u64
    requires { Has (λ h. Open h c.0) (arena_words a.old) r.old × (z ≡ size_at (arena_words a.old) c.0) }
    ensures { Does ℕ (λ h. Open h c.0) (join_rest c.0) (arena_words a.old) r.old result (arena_words a.new) r.new }
{
    let s = join_next(a, r, c, z);
    put_down(a, r, c, s)
}

pub fn join(a: &mut [u8], r: &mut [u32], c: Chunk) -> u64
    requires { Has (λ h. Good h × Loose h c.0) (arena_words a.old) r.old }
    ensures { Does ℕ (λ h. Good h × Loose h c.0) (join c.0) (arena_words a.old) r.old result (arena_words a.new) r.new }
{
    let w = size_word_at(a, c);
    let z = w.size();
    if w.has_p() {
        return join_rest(a, r, c, z);
    }
    let d = note_at(a, c);
    let q = Chunk(c.0 - d);
    let s = d + z;
    absorb(a, r, q, d, q, s);
    join_rest(a, r, q, s)
}
