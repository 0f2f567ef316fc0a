// A block that keeps its place: it gets a size with its own P as it stands; the next P is set, and a rest of 32 or more is cut off and released.
ghost use Rattle.std.specs.Prelude.{◌≡◌, ◌+◌, ◌-◌, ◌%◌, ◌≤◌, ◌<◌, ◌^◌, length, get_or};
ghost use Rattle.le.specs.Arena.{arena_words};
ghost use Rattle.sizes.specs.Layout.{size_word};
ghost use Rattle.machine.specs.Writes.{size, put};
ghost use Rattle.machine.specs.Primitives.{grow_top};
ghost use Rattle.machine.specs.Resize.{next_p, finish};
ghost use Rattle.primitives.specs.Follow.{Has, Does};
ghost use Rattle.resize.specs.States.{Stands, Widens, Grows, Reaches, widen_finish, take_in};

use chunk_fields::{set_size, size_at, size_word_at};
use primitives::{set_p, unlink_wherever};
use release::release;
use sizes::{Chunk, LEAST_CHUNK, LENGTH_WORD, Size, TOP_WORD};

// The size word of c becomes that of the size s; its P stays.
fn set_own_size(a: &mut [u8], c: Chunk, s: u64)
    requires { (c.0 % 8 ≡ 0) × (c.0 + 16 ≤ length a.old) × (s + 1 < 2 ^ 64) }
    ensures { arena_words a.new ≡ put (size c.0 s (get_or (arena_words a.old) (size_word c.0) 0 % 2)) (arena_words a.old) }
{
    let p = size_word_at(a, c).has_p();
    set_size(a, c, s, p);
}

// The P of the chunk next to c, of size z, is set. (The top's always is.)
fn set_next_p(a: &mut [u8], r: &[u32], c: Chunk, z: u64)
    requires { Has (λ h. Stands h c.0 z) (arena_words a.old) r.now }
    ensures { Does (Unit {0}) (λ h. Stands h c.0 z) (next_p c.0) (arena_words a.old) r.now tt (arena_words a.new) r.now }
{
    let next = Chunk(c.0 + z);
    if next.0 == r[TOP_WORD] as u64 {
        return;
    }
    set_p(a, next);
}

// c, of size z, is cut at b: its own size word, then the rest's.
fn trim(a: &mut [u8], c: Chunk, z: u64, b: Size)
    requires { (c.0 % 8 ≡ 0) × (b.bytes + 32 ≤ z) × (c.0 + z ≤ length a.old) × (c.0 + z ≤ 262144) }
    ensures { arena_words a.new ≡ put (size (c.0 + b.bytes) (z - b.bytes) 1) (put (size c.0 b.bytes (get_or (arena_words a.old) (size_word c.0) 0 % 2)) (arena_words a.old)) }
{
    set_own_size(a, c, b.bytes);
    set_size(a, Chunk(c.0 + b.bytes), z - b.bytes, true);
}

// Except after taking from the top, the next P is set and a rest of 32 or more is cut off and released in the ordinary way.
pub fn finish(a: &mut [u8], r: &mut [u32], c: Chunk, z: u64, b: Size)
    requires { (b.bytes ≤ z) × Has (λ h. Stands h c.0 z) (arena_words a.old) r.old }
    ensures { Does (Unit {0}) (λ h. Stands h c.0 z) (finish c.0 b.bytes) (arena_words a.old) r.old tt (arena_words a.new) r.new }
{
    if z - b.bytes < LEAST_CHUNK {
        set_next_p(a, r, c, z);
        return;
    }
    trim(a, c, z, b);
    set_next_p(a, r, Chunk(c.0 + b.bytes), z - b.bytes);
    release(a, r, Chunk(c.0 + b.bytes));
}

// c, of size z, takes in the chunk behind it, which no list has, and is finished.
pub fn widen(a: &mut [u8], r: &mut [u32], c: Chunk, z: u64, b: Size)
    requires { Has (λ h. Widens h c.0 z b.bytes) (arena_words a.old) r.old }
    ensures { Does (Unit {0}) (λ h. Widens h c.0 z b.bytes) (widen_finish c.0 b.bytes) (arena_words a.old) r.old tt (arena_words a.new) r.new }
{
    let s = z + size_at(a, Chunk(c.0 + z));
    set_own_size(a, c, s);
    finish(a, r, c, s, b);
}

// c, of size z, takes in the binned chunk behind it.
pub fn take_in(a: &mut [u8], r: &mut [u32], c: Chunk, z: u64, b: Size)
    requires { Has (λ h. Reaches h c.0 z b.bytes) (arena_words a.old) r.old }
    ensures { Does (Unit {0}) (λ h. Reaches h c.0 z b.bytes) (take_in c.0 b.bytes) (arena_words a.old) r.old tt (arena_words a.new) r.new }
{
    let n = Chunk(c.0 + z);
    let zn = size_at(a, n);
    unlink_wherever(a, r, n, zn);
    widen(a, r, c, z, b);
}

// c, next to the top, takes from it what it lacks of b.
pub fn grow_top(a: &mut [u8], r: &mut [u32], c: Chunk, b: Size)
    requires { Has (λ h. Grows h c.0 b.bytes) (arena_words a.old) r.old }
    ensures { Does (Unit {0}) (λ h. Grows h c.0 b.bytes) (grow_top c.0 b.bytes) (arena_words a.old) r.old tt (arena_words a.new) r.new }
{
    let top = Chunk(c.0 + b.bytes);
    set_own_size(a, c, b.bytes);
    set_size(a, top, r[LENGTH_WORD] as u64 - top.0, true);
    r[TOP_WORD] = top.0 as u32;
}
