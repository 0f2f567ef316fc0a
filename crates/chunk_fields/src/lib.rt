// The one place that knows where a field of a chunk lies in the arena, and how a link, a size word and the key are written there and in the record.
// Each write of a field is a write of the machine.
#![tactic(auto)]

mod keys; // keys.rt: the record's key
mod links; // links.rt: the two ways of writing 'none'
mod mixing; // mixing.rt: links as an edition stores them

ghost use Rattle.std.specs.Prelude.{◌≡◌, ◌+◌, ◌*◌, ◌/◌, ◌%◌, ◌≤◌, ◌<◌, ◌^◌, length, get_or};
ghost use Rattle.le.specs.Arena.{arena_words};
ghost use Rattle.sizes.specs.Layout.{prev_word, size_word, fwd_word, back_word, key_word, skip_fwd_word, skip_back_word};
ghost use Rattle.sizes.specs.SizeWord.{bit};
ghost use Rattle.machine.specs.Writes.{size, note, fwd, back, key, skip_fwd, skip_back, copy, put};
ghost use Rattle.machine.specs.View.{size_at};

pub use keys::{key_in, set_key_in};
pub use links::{link_of, word_of};
pub use mixing::{edition_in, set_stack_link, stack_link_at};
use sizes::{Chunk, SizeWord};

// A link of the arena: a chunk's offset, or NONE64 for the end.
#[derive(Clone, Copy)]
pub struct Link(pub u64);

// Kept: a reader and a writer for each field, alike but for the place: each name is its field's, and the one place that knows where it lies.

// The size word of the chunk at c, and the size in it.
pub fn size_word_at(a: &[u8], c: Chunk) -> SizeWord
    requires { (c.0 % 8 ≡ 0) × (c.0 + 16 ≤ length a.now) }
    ensures { result.0 ≡ get_or (arena_words a.now) (size_word c.0) 0 }
{
    SizeWord(le::word(a, (c.0 + 8) as usize))
}

pub fn size_at(a: &[u8], c: Chunk) -> u64
    requires { (c.0 % 8 ≡ 0) × (c.0 + 16 ≤ length a.now) }
    ensures { result ≡ size_at (arena_words a.now) c.0 }
{
    size_word_at(a, c).size()
}

// The previous size that is noted at c, and the links.
pub fn note_at(a: &[u8], c: Chunk) -> u64
    requires { (c.0 % 8 ≡ 0) × (c.0 + 8 ≤ length a.now) }
    ensures { result ≡ get_or (arena_words a.now) (prev_word c.0) 0 }
{
    le::word(a, c.0 as usize)
}

pub fn fwd_at(a: &[u8], c: Chunk) -> Link
    requires { (c.0 % 8 ≡ 0) × (c.0 + 24 ≤ length a.now) }
    ensures { result.0 ≡ get_or (arena_words a.now) (fwd_word c.0) 0 }
{
    Link(le::word(a, (c.0 + 16) as usize))
}

pub fn back_at(a: &[u8], c: Chunk) -> Link
    requires { (c.0 % 8 ≡ 0) × (c.0 + 32 ≤ length a.now) }
    ensures { result.0 ≡ get_or (arena_words a.now) (back_word c.0) 0 }
{
    Link(le::word(a, (c.0 + 24) as usize))
}

// The word of a cached chunk that has the key.
pub fn key_at(a: &[u8], c: Chunk) -> u64
    requires { (c.0 % 8 ≡ 0) × (c.0 + 32 ≤ length a.now) }
    ensures { result ≡ get_or (arena_words a.now) (key_word c.0) 0 }
{
    le::word(a, (c.0 + 24) as usize)
}

// The skip links of a chunk that has room for them.
pub fn skip_fwd_at(a: &[u8], c: Chunk) -> Link
    requires { (c.0 % 8 ≡ 0) × (c.0 + 40 ≤ length a.now) }
    ensures { result.0 ≡ get_or (arena_words a.now) (skip_fwd_word c.0) 0 }
{
    Link(le::word(a, (c.0 + 32) as usize))
}

pub fn skip_back_at(a: &[u8], c: Chunk) -> Link
    requires { (c.0 % 8 ≡ 0) × (c.0 + 48 ≤ length a.now) }
    ensures { result.0 ≡ get_or (arena_words a.now) (skip_back_word c.0) 0 }
{
    Link(le::word(a, (c.0 + 40) as usize))
}

// The usable word i of c; the last is the previous size that is noted behind c.
pub fn usable_word_at(a: &[u8], c: Chunk, i: u64) -> u64
    requires { (c.0 % 8 ≡ 0) × (c.0 + 24 + 8 * i ≤ length a.now) }
    ensures { result ≡ get_or (arena_words a.now) (c.0 / 8 + (2 + i)) 0 }
{
    le::word(a, (c.0 + 16 + 8 * i) as usize)
}

// The size word of c becomes that of the size s and P.
pub fn set_size(a: &mut [u8], c: Chunk, s: u64, p: bool)
    requires { (c.0 % 8 ≡ 0) × (c.0 + 16 ≤ length a.old) × (s + 1 < 2 ^ 64) }
    ensures { arena_words a.new ≡ put (size c.0 s (bit p)) (arena_words a.old) }
{
    let w = SizeWord::make(s, p);
    le::set_word(a, (c.0 + 8) as usize, w.0);
}

pub fn set_note(a: &mut [u8], c: Chunk, s: u64)
    requires { (c.0 % 8 ≡ 0) × (c.0 + 8 ≤ length a.old) }
    ensures { arena_words a.new ≡ put (note c.0 s) (arena_words a.old) }
{
    le::set_word(a, c.0 as usize, s);
}

pub fn set_fwd(a: &mut [u8], c: Chunk, x: Link)
    requires { (c.0 % 8 ≡ 0) × (c.0 + 24 ≤ length a.old) }
    ensures { arena_words a.new ≡ put (fwd c.0 x.0) (arena_words a.old) }
{
    le::set_word(a, (c.0 + 16) as usize, x.0);
}

pub fn set_back(a: &mut [u8], c: Chunk, x: Link)
    requires { (c.0 % 8 ≡ 0) × (c.0 + 32 ≤ length a.old) }
    ensures { arena_words a.new ≡ put (back c.0 x.0) (arena_words a.old) }
{
    le::set_word(a, (c.0 + 24) as usize, x.0);
}

pub fn set_key(a: &mut [u8], c: Chunk, q: u64)
    requires { (c.0 % 8 ≡ 0) × (c.0 + 32 ≤ length a.old) }
    ensures { arena_words a.new ≡ put (key c.0 q) (arena_words a.old) }
{
    le::set_word(a, (c.0 + 24) as usize, q);
}

pub fn set_skip_fwd(a: &mut [u8], c: Chunk, x: Link)
    requires { (c.0 % 8 ≡ 0) × (c.0 + 40 ≤ length a.old) }
    ensures { arena_words a.new ≡ put (skip_fwd c.0 x.0) (arena_words a.old) }
{
    le::set_word(a, (c.0 + 32) as usize, x.0);
}

pub fn set_skip_back(a: &mut [u8], c: Chunk, x: Link)
    requires { (c.0 % 8 ≡ 0) × (c.0 + 48 ≤ length a.old) }
    ensures { arena_words a.new ≡ put (skip_back c.0 x.0) (arena_words a.old) }
{
    le::set_word(a, (c.0 + 40) as usize, x.0);
}

// The usable word i of d becomes that of c.
pub fn copy_usable_word(a: &mut [u8], d: Chunk, c: Chunk, i: u64)
    requires { (d.0 % 8 ≡ 0) × (c.0 % 8 ≡ 0) × (d.0 + 24 + 8 * i ≤ length a.old) × (c.0 + 24 + 8 * i ≤ length a.old) }
    ensures { arena_words a.new ≡ put (copy d.0 c.0 i) (arena_words a.old) }
{
    let v = usable_word_at(a, c, i);
    le::set_word(a, (d.0 + 16 + 8 * i) as usize, v);
}
