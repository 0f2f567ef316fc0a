// The machine's primitives on lists and flags as code, on the arena's bytes and the record's words.
#![tactic(auto)]

ghost use Rattle.std.specs.Prelude.{◌≡◌, true, List, ℕ, ◌+◌, ◌%◌, ◌≤◌, ◌<◌, ◌^◌, length, get_or, Option, Some};
ghost use Rattle.le.specs.Arena.{arena_words};
ghost use Rattle.machine.specs.Lists.{some?, cnt};
ghost use Rattle.machine.specs.Heap.{Heap, stack, fast_at, bin, size_of};
ghost use Rattle.machine.specs.Writes.{size, note, put, apply};
ghost use Rattle.machine.specs.Skips.{ring, skips_in, skips_out};
ghost use Rattle.machine.specs.Primitives.{push, pop, push_cache, take_cache, link_in, put_first, unlink};
ghost use Rattle.machine.specs.View.{size_at};
ghost use Rattle.sizes.specs.Sizes.{cache_of};
ghost use Rattle.sizes.specs.Layout.{cache_count, bin_first, bin_last};
ghost use Rattle.sound.specs.Relation.{Loose};
ghost use Rattle.chunk_fields.specs.Links.{down};
ghost use Rattle.primitives.specs.Follow.{Ok, Has, Gave, Does};
ghost use Rattle.primitives.specs.Room.{cache_takes};
ghost use Rattle.primitives.specs.Places.{Gap, InBin, Home, Between, Binned};
ghost use Rattle.primitives.specs.Linked.{comes, leaves, Linked, HasLinks, Fits};
ghost use Rattle.primitives.specs.Ends.{Leads, link_fwd, link_back, link_end, bin_by};

use chunk_fields::{
    Link, back_at, edition_in, fwd_at, key_in, link_of, set_back, set_fwd, set_key, set_note,
    set_size, set_stack_link, size_at, stack_link_at, word_of,
};
use sizes::{
    CACHE_COUNTS, CACHE_HEADS, CACHE_ROOM, Chunk, FAST_HEADS, LARGE, LARGE_BIN, MOST_CACHED,
    NONE64, UNSORTED,
};
use skip_links::{put_skips, write_ring};

// c goes on cache list k, which has room, with the key in its second word.
// Kept: apart from push_fast, and take_cache from take_fast, since the cache alone counts its chunks and marks them (d): `push_cache`, `push` are two definitions.
pub fn push_cache(a: &mut [u8], r: &mut [u32], k: usize, c: Chunk)
    requires { (k < 64) × Has (λ h. Loose h c.0 × (length (stack h k) < 7)) (arena_words a.old) r.old }
    ensures { Does (Unit {0}) (λ h. Loose h c.0 × (length (stack h k) < 7)) (push_cache k c.0) (arena_words a.old) r.old tt (arena_words a.new) r.new }
{
    let x = r[CACHE_HEADS + k];
    let n = r[CACHE_COUNTS + k];
    let d = edition_in(r);
    set_stack_link(a, d, c, link_of(x));
    set_key(a, c, key_in(r));
    r[CACHE_HEADS + k] = c.0 as u32;
    r[CACHE_COUNTS + k] = n + 1;
}

// Whether the cache takes one more chunk of size z: up to 1,040, and its list has fewer than 7.
pub fn cache_takes(r: &[u32], z: u64) -> bool
    requires { (32 ≤ z) × (length r.now ≡ 396) }
    ensures { result ≡ cache_takes (get_or r.now (cache_count (cache_of z)) 0) z }
{
    if MOST_CACHED < z {
        return false;
    }
    r[CACHE_COUNTS + sizes::cache_list(z)] < CACHE_ROOM
}

// The head of cache list k, which has one, is taken, with 0 where its key was.
pub fn take_cache(a: &mut [u8], r: &mut [u32], k: usize) -> Chunk
    requires { (k < 64) × Has (λ h. some? (stack h k) ≡ true) (arena_words a.old) r.old }
    ensures { Does (Option ℕ) (λ h. some? (stack h k) ≡ true) (take_cache k) (arena_words a.old) r.old (Some result.0) (arena_words a.new) r.new }
{
    let c = Chunk(r[CACHE_HEADS + k] as u64);
    let n = r[CACHE_COUNTS + k];
    let d = edition_in(r);
    r[CACHE_HEADS + k] = word_of(stack_link_at(a, d, c));
    r[CACHE_COUNTS + k] = n - 1;
    set_key(a, c, 0);
    c
}

// The same for fast list k.
pub fn push_fast(a: &mut [u8], r: &mut [u32], k: usize, c: Chunk)
    requires { (k < 10) × Has (λ h. Loose h c.0) (arena_words a.old) r.old }
    ensures { Does (Unit {0}) (λ h. Loose h c.0) (push (fast_at k) c.0) (arena_words a.old) r.old tt (arena_words a.new) r.new }
{
    let x = r[FAST_HEADS + k];
    let d = edition_in(r);
    set_stack_link(a, d, c, link_of(x));
    r[FAST_HEADS + k] = c.0 as u32;
}

pub fn take_fast(a: &[u8], r: &mut [u32], k: usize) -> Chunk
    requires { (k < 10) × Has (λ h. some? (stack h (fast_at k)) ≡ true) (arena_words a.now) r.old }
    ensures { Does (Option ℕ) (λ h. some? (stack h (fast_at k)) ≡ true) (pop (fast_at k)) (arena_words a.now) r.old (Some result.0) (arena_words a.now) r.new }
{
    let c = Chunk(r[FAST_HEADS + k] as u64);
    let d = edition_in(r);
    r[FAST_HEADS + k] = word_of(stack_link_at(a, d, c));
    c
}

// The forward link of p, or the first of bin j where p is none, becomes x.
// Kept: apart from link_back, since a direction told as a value would be asked for the word of the record and for the field (d).
fn link_fwd(a: &mut [u8], r: &mut [u32], j: usize, p: Link, x: Link)
    requires { (j ≤ 126) × (length r.old ≡ 396) × Leads (length a.old) p.0 × (down x.0 < 2 ^ 32) }
    ensures { (arena_words a.new ≡ link_fwd (arena_words a.old) p.0 x.0) × (r.new ≡ link_end r.old (bin_first j) p.0 x.0) }
{
    if p.0 == NONE64 {
        let at = sizes::bin_first(j);
        r[at] = word_of(x);
        return;
    }
    set_fwd(a, Chunk(p.0), x);
}

// The back link of n, or the last of bin j where n is none, becomes x.
fn link_back(a: &mut [u8], r: &mut [u32], j: usize, n: Link, x: Link)
    requires { (j ≤ 126) × (length r.old ≡ 396) × Leads (length a.old) n.0 × (down x.0 < 2 ^ 32) }
    ensures { (arena_words a.new ≡ link_back (arena_words a.old) n.0 x.0) × (r.new ≡ link_end r.old (bin_last j) n.0 x.0) }
{
    if n.0 == NONE64 {
        let at = sizes::bin_last(j);
        r[at] = word_of(x);
        return;
    }
    set_back(a, Chunk(n.0), x);
}

// c comes into bin j between p and n: its links.
fn link_between(a: &mut [u8], r: &mut [u32], j: usize, c: Chunk, p: Link, n: Link)
    requires { (1 ≤ j) × (j ≤ 126) × Has (λ h. Loose h c.0 × Between h j p.0 n.0) (arena_words a.old) r.old }
    ensures { (h : Heap) (xs ys : List ℕ) → Ok h (arena_words a.old) r.old → Loose h c.0 → Gap h j xs ys p.0 n.0
        → Gave (Unit {0}) (comes j c.0 xs ys h) tt (arena_words a.old) (arena_words a.new) r.new }
{
    set_fwd(a, c, n);
    set_back(a, c, p);
    link_fwd(a, r, j, p, Link(c.0));
    link_back(a, r, j, n, Link(c.0));
}

// The ring of bin j, one of large chunks, is written anew.
pub fn renew_ring(a: &mut [u8], r: &[u32], j: usize)
    requires { (64 ≤ j) × (j ≤ 126) × HasLinks (λ h. Unit {0}) (arena_words a.old) r.now }
    ensures { (h : Heap) → Linked h (arena_words a.old) r.now
        → arena_words a.new ≡ apply (ring (λ x. size_of h x) (bin h j)) (arena_words a.old) }
{
    let at = sizes::bin_first(j);
    write_ring(a, link_of(r[at]));
}

// A chunk has left bin j: the skip links that follow.
fn skips_out(a: &mut [u8], r: &[u32], j: usize)
    requires { (j ≤ 126) × HasLinks (λ h. Unit {0}) (arena_words a.old) r.now }
    ensures { (h : Heap) → Linked h (arena_words a.old) r.now
        → arena_words a.new ≡ apply (skips_out j (λ x. size_of h x) (bin h j)) (arena_words a.old) }
{
    if j < LARGE_BIN {
        return;
    }
    renew_ring(a, r, j);
}

// c has come into bin j: the skip links that follow.
fn skips_in(a: &mut [u8], r: &[u32], j: usize, c: Chunk)
    requires { (j ≤ 126) × HasLinks (λ h. 1 ≤ cnt c.0 (bin h j)) (arena_words a.old) r.now }
    ensures { (h : Heap) → Linked h (arena_words a.old) r.now → 1 ≤ cnt c.0 (bin h j)
        → arena_words a.new ≡ apply (skips_in j (λ x. size_of h x) c.0 (bin h j)) (arena_words a.old) }
{
    if j == UNSORTED {
        let z = size_at(a, c);
        put_skips(a, c, z);
        return;
    }
    skips_out(a, r, j);
}

// c goes into bin j between p and n.
pub fn link_in(a: &mut [u8], r: &mut [u32], j: usize, c: Chunk, p: Link, n: Link)
    requires { (1 ≤ j) × (j ≤ 126) × Has (λ h. Loose h c.0 × Between h j p.0 n.0 × Fits h j c.0) (arena_words a.old) r.old }
    ensures { (h : Heap) (xs ys : List ℕ) → Ok h (arena_words a.old) r.old → Loose h c.0 → Gap h j xs ys p.0 n.0 → Fits h j c.0
        → Gave (Unit {0}) (link_in j c.0 xs ys h) tt (arena_words a.old) (arena_words a.new) r.new }
{
    link_between(a, r, j, c, p, n);
    skips_in(a, r, j, c);
}

// c goes first in bin j, which is none of large chunks.
pub fn put_first(a: &mut [u8], r: &mut [u32], j: usize, c: Chunk)
    requires { (1 ≤ j) × (j < 64) × Has (λ h. Loose h c.0) (arena_words a.old) r.old }
    ensures { Does (Unit {0}) (λ h. Loose h c.0) (put_first j c.0) (arena_words a.old) r.old tt (arena_words a.new) r.new }
{
    let at = sizes::bin_first(j);
    let n = link_of(r[at]);
    link_in(a, r, j, c, Link(NONE64), n);
}

// c leaves bin j, which has it: the links of its neighbours.
fn link_past(a: &mut [u8], r: &mut [u32], j: usize, c: Chunk)
    requires { Has (λ h. InBin h j c.0) (arena_words a.old) r.old }
    ensures { Does (Unit {0}) (λ h. InBin h j c.0) (leaves j c.0) (arena_words a.old) r.old tt (arena_words a.new) r.new }
{
    let n = fwd_at(a, c);
    let p = back_at(a, c);
    link_fwd(a, r, j, p, n);
    link_back(a, r, j, n, p);
}

// c leaves bin j, which has it.
pub fn unlink(a: &mut [u8], r: &mut [u32], j: usize, c: Chunk)
    requires { Has (λ h. InBin h j c.0) (arena_words a.old) r.old }
    ensures { Does (Unit {0}) (λ h. InBin h j c.0) (unlink j c.0) (arena_words a.old) r.old tt (arena_words a.new) r.new }
{
    link_past(a, r, j, c);
    skips_out(a, r, j);
}

// The bin of a chunk c of size z that is the first of its list, or the last, v being unsorted's: unsorted if c is v, else its size's.
fn bin_of_end(v: u32, c: Chunk, z: u64) -> usize
    ensures { result ≡ bin_by v c.0 z }
{
    if v as u64 == c.0 {
        return UNSORTED;
    }
    sizes::bin_of(z)
}

// c, a binned chunk of size z, leaves its bin: the links of its neighbours. Which bin that is matters only where c is the first or the last of it.
fn link_past_wherever(a: &mut [u8], r: &mut [u32], c: Chunk, z: u64)
    requires { Has (λ h. Binned h c.0 z) (arena_words a.old) r.old }
    ensures { (h : Heap) (j : ℕ) → Ok h (arena_words a.old) r.old → Home h j c.0 z
        → Gave (Unit {0}) (leaves j c.0 h) tt (arena_words a.old) (arena_words a.new) r.new }
{
    let p = back_at(a, c);
    if p.0 == NONE64 {
        let at = sizes::bin_first(UNSORTED);
        let j = bin_of_end(r[at], c, z);
        link_past(a, r, j, c);
        return;
    }
    let n = fwd_at(a, c);
    if n.0 == NONE64 {
        let at = sizes::bin_last(UNSORTED);
        let j = bin_of_end(r[at], c, z);
        link_past(a, r, j, c);
        return;
    }
    set_fwd(a, Chunk(p.0), n);
    set_back(a, Chunk(n.0), p);
}

// c, a binned chunk of size z, leaves its bin. If it is large and was in unsorted, the ring of its size's bin is written as it stands.
pub fn unlink_wherever(a: &mut [u8], r: &mut [u32], c: Chunk, z: u64)
    requires { Has (λ h. Binned h c.0 z) (arena_words a.old) r.old }
    ensures { (h : Heap) (j : ℕ) → Ok h (arena_words a.old) r.old → Home h j c.0 z
        → Gave (Unit {0}) (unlink j c.0 h) tt (arena_words a.old) (arena_words a.new) r.new }
{
    link_past_wherever(a, r, c, z);
    if z < LARGE {
        return;
    }
    renew_ring(a, r, sizes::bin_of(z));
}

// The P of the chunk at n is set.
pub fn set_p(a: &mut [u8], n: Chunk)
    requires { (n.0 % 16 ≡ 0) × (n.0 + 32 ≤ length a.old) }
    ensures { arena_words a.new ≡ put (size n.0 (size_at (arena_words a.old) n.0) 1) (arena_words a.old) }
{
    let z = size_at(a, n);
    set_size(a, n, z, true);
}

// The P of the chunk at n is cleared, and the size s of the chunk before it is noted.
pub fn clear_p(a: &mut [u8], n: Chunk, s: u64)
    requires { (n.0 % 16 ≡ 0) × (n.0 + 32 ≤ length a.old) }
    ensures { arena_words a.new ≡ put (note n.0 s) (put (size n.0 (size_at (arena_words a.old) n.0) 0) (arena_words a.old)) }
{
    let z = size_at(a, n);
    set_size(a, n, z, false);
    set_note(a, n, s);
}
