// Skip links (document 02, (x)) as code: the ring of a large bin's list, and the words of chunks in unsorted. Each walks the list that begins at x.
// Assumes nothing.
#![tactic(auto)]

ghost use Rattle.std.specs.Prelude.{◌≡◌, List, ℕ, ◌+◌, ◌%◌, ◌≤◌, length};
ghost use Rattle.le.specs.Arena.{arena_words};
ghost use Rattle.machine.specs.Writes.{apply, stand?};
ghost use Rattle.machine.specs.Skips.{no_skips, ring, put_skips, all_put};
ghost use Rattle.machine.specs.View.{size_at};
ghost use Rattle.skip_links.specs.Members.{group_of, linked_by, member};
ghost use Rattle.skip_links.specs.Walk.{Walk, LargeWalk, Walked, LargeWalked};

use chunk_fields::{Link, fwd_at, set_skip_back, set_skip_fwd, size_at, skip_back_at, skip_fwd_at};
use sizes::{Chunk, LARGE, NONE64};

// Both words of c get all ones.
fn set_no_skips(a: &mut [u8], c: Chunk)
    requires { (c.0 % 8 ≡ 0) × (c.0 + 48 ≤ length a.old) }
    ensures { arena_words a.new ≡ apply (no_skips c.0) (arena_words a.old) }
{
    set_skip_fwd(a, c, Link(NONE64));
    set_skip_back(a, c, Link(NONE64));
}

// A chunk c of size z is put or left in unsorted.
pub fn put_skips(a: &mut [u8], c: Chunk, z: u64)
    requires { (c.0 % 8 ≡ 0) × (32 ≤ z) × (c.0 + z ≤ length a.old) }
    ensures { (sz : ℕ → ℕ) → sz c.0 ≡ z → arena_words a.new ≡ apply (put_skips sz c.0) (arena_words a.old) }
{
    if z < LARGE {
        return;
    }
    set_no_skips(a, c);
}

// The skip links lead from q forward to c and back.
fn set_linked(a: &mut [u8], q: Chunk, c: Chunk)
    requires { (q.0 % 8 ≡ 0) × (q.0 + 48 ≤ length a.old) × (c.0 % 8 ≡ 0) × (c.0 + 48 ≤ length a.old) }
    ensures { arena_words a.new ≡ apply (linked_by q.0 c.0) (arena_words a.old) }
{
    set_skip_fwd(a, q, Link(c.0));
    set_skip_back(a, c, Link(q.0));
}

// A ring is written as far as the group that begins at q, and c comes next in the list: what c brings, and where its group begins.
fn write_member(a: &mut [u8], q: Chunk, c: Chunk) -> Chunk
    requires { (q.0 % 8 ≡ 0) × (q.0 + 48 ≤ length a.old) × (c.0 % 8 ≡ 0) × (c.0 + 48 ≤ length a.old) }
    ensures result_value { result.0 ≡ group_of (size_at (arena_words a.old) q.0) (size_at (arena_words a.old) c.0) q.0 c.0 }
    ensures a_after { arena_words a.new
        ≡ apply (member (size_at (arena_words a.old) q.0) (size_at (arena_words a.old) c.0) q.0 c.0) (arena_words a.old) }
{
    if size_at(a, c) == size_at(a, q) {
        set_no_skips(a, c);
        return q;
    }
    set_linked(a, q, c);
    c
}

// The ring of the list that begins at x is written anew.
// Kept: apart from ring_stands, since one writes the arena and the other reads it and may stop (d).
pub fn write_ring(a: &mut [u8], x: Link)
    requires { LargeWalked (arena_words a.old) x.0 }
    ensures { (l : List ℕ) → LargeWalk (arena_words a.old) x.0 l
        → arena_words a.new ≡ apply (ring (λ y. size_at (arena_words a.old) y) l) (arena_words a.old) }
{
    if x.0 == NONE64 {
        return;
    }
    let f = Chunk(x.0);
    let mut q = f;
    let mut n = fwd_at(a, f);
    while n.0 != NONE64 {
        let c = Chunk(n.0);
        q = write_member(a, q, c);
        n = fwd_at(a, c);
    }
    set_linked(a, q, f);
}

// Whether the skip links lead from q forward to c and back.
fn linked(a: &[u8], q: Chunk, c: Chunk) -> bool
    requires { (q.0 % 8 ≡ 0) × (q.0 + 48 ≤ length a.now) × (c.0 % 8 ≡ 0) × (c.0 + 48 ≤ length a.now) }
    ensures { result ≡ stand? (linked_by q.0 c.0) (arena_words a.now) }
{
    skip_fwd_at(a, q).0 == c.0 && skip_back_at(a, c).0 == q.0
}

// Whether both words of c have all ones.
fn has_no_skips(a: &[u8], c: Chunk) -> bool
    requires { (c.0 % 8 ≡ 0) × (c.0 + 48 ≤ length a.now) }
    ensures { result ≡ stand? (no_skips c.0) (arena_words a.now) }
{
    skip_fwd_at(a, c).0 == NONE64 && skip_back_at(a, c).0 == NONE64
}

// A ring is read as far as the group that begins at q, and c comes next in the list: where its group begins.
fn group_of(a: &[u8], q: Chunk, c: Chunk) -> Chunk
    requires { (q.0 % 8 ≡ 0) × (q.0 + 48 ≤ length a.now) × (c.0 % 8 ≡ 0) × (c.0 + 48 ≤ length a.now) }
    ensures { result.0 ≡ group_of (size_at (arena_words a.now) q.0) (size_at (arena_words a.now) c.0) q.0 c.0 }
{
    if size_at(a, c) == size_at(a, q) {
        return q;
    }
    c
}

// Whether what c brings there stands.
fn member_stands(a: &[u8], q: Chunk, c: Chunk) -> bool
    requires { (q.0 % 8 ≡ 0) × (q.0 + 48 ≤ length a.now) × (c.0 % 8 ≡ 0) × (c.0 + 48 ≤ length a.now) }
    ensures { result
        ≡ stand? (member (size_at (arena_words a.now) q.0) (size_at (arena_words a.now) c.0) q.0 c.0) (arena_words a.now) }
{
    if size_at(a, c) == size_at(a, q) {
        return has_no_skips(a, c);
    }
    linked(a, q, c)
}

// Whether the ring of the list that begins at x stands.
pub fn ring_stands(a: &[u8], x: Link) -> bool
    requires { LargeWalked (arena_words a.now) x.0 }
    ensures { (l : List ℕ) → LargeWalk (arena_words a.now) x.0 l
        → result ≡ stand? (ring (λ y. size_at (arena_words a.now) y) l) (arena_words a.now) }
{
    if x.0 == NONE64 {
        return true;
    }
    let f = Chunk(x.0);
    let mut q = f;
    let mut n = fwd_at(a, f);
    while n.0 != NONE64 {
        let c = Chunk(n.0);
        if !member_stands(a, q, c) {
            return false;
        }
        q = group_of(a, q, c);
        n = fwd_at(a, c);
    }
    linked(a, q, f)
}

// Whether c, if it is large, has all ones.
fn put_stands(a: &[u8], c: Chunk) -> bool
    requires { (c.0 % 8 ≡ 0) × (32 ≤ size_at (arena_words a.now) c.0) × (c.0 + size_at (arena_words a.now) c.0 ≤ length a.now) }
    ensures { result ≡ stand? (put_skips (λ y. size_at (arena_words a.now) y) c.0) (arena_words a.now) }
{
    if size_at(a, c) < LARGE {
        return true;
    }
    has_no_skips(a, c)
}

// Whether each large chunk of unsorted, which begins at x, has all ones.
pub fn puts_stand(a: &[u8], x: Link) -> bool
    requires { Walked (arena_words a.now) x.0 }
    ensures { (l : List ℕ) → Walk (arena_words a.now) x.0 l
        → result ≡ stand? (all_put (λ y. size_at (arena_words a.now) y) l) (arena_words a.now) }
{
    let mut u = x;
    while u.0 != NONE64 {
        let c = Chunk(u.0);
        if !put_stands(a, c) {
            return false;
        }
        u = fwd_at(a, c);
    }
    true
}
