// Resize, in document 02's words and order, on the arena's bytes and the record's words.
#![tactic(auto)]

mod in_place; // in_place.rt: a block that keeps its place
mod moved; // moved.rt: a new block is sought

ghost use Rattle.std.specs.Prelude.{◌≡◌, ◌+◌, ◌≤◌, length, get_or, Option, ℕ};
ghost use Rattle.le.specs.Arena.{arena_words};
ghost use Rattle.sizes.specs.Layout.{length_word, top_word};
ghost use Rattle.machine.specs.Heap.{Heap};
ghost use Rattle.machine.specs.Resize.{resize};
ghost use Rattle.sound.specs.Relation.{Good, Loose};
ghost use Rattle.primitives.specs.Follow.{Ok, Has, Does};
ghost use Rattle.resize.specs.States.{Live, top_reaches, behind_reaches};

use chunk_fields::{size_at, size_word_at};
use sizes::{Chunk, LENGTH_WORD, Size, TOP_WORD};

// Whether the top is next to c, of size z, and both together reach b + 32.
fn top_reaches(r: &[u32], c: Chunk, z: u64, b: Size) -> bool
    requires { (length r.now ≡ 396) × (c.0 + z ≤ 262144) × (get_or r.now top_word 0 ≤ get_or r.now length_word 0) }
    ensures { result ≡ top_reaches r.now c.0 z b.bytes }
{
    let top = r[TOP_WORD] as u64;
    if c.0 + z == top {
        return b.bytes + 32 <= z + (r[LENGTH_WORD] as u64 - top);
    }
    false
}

// Whether the chunk behind c, of size z, is binned, and both reach b: the P behind that chunk says so, and no binned chunk touches the top.
fn behind_reaches(a: &[u8], r: &[u32], c: Chunk, z: u64, b: Size) -> bool
    requires { Has (λ h. Live h c.0 z) (arena_words a.now) r.now }
    ensures { (h : Heap) → Ok h (arena_words a.now) r.now → Live h c.0 z → result ≡ behind_reaches h c.0 b.bytes }
{
    let n = Chunk(c.0 + z);
    if n.0 == r[TOP_WORD] as u64 {
        return false;
    }
    let zn = size_at(a, n);
    if size_word_at(a, Chunk(n.0 + zn)).has_p() {
        return false;
    }
    b.bytes <= z + zn
}

// The block c gets a size of at least b. A block large enough stays; else it takes from the top if both together reach b + 32; else it takes in a binned chunk
// behind it if both reach b; else a new block is sought.
pub fn resize(a: &mut [u8], r: &mut [u32], c: Chunk, b: Size) -> Option<u32>
    requires { Has (λ h. Good h × Loose h c.0) (arena_words a.old) r.old }
    ensures { Does (Option ℕ) (λ h. Good h × Loose h c.0) (resize c.0 b.bytes) (arena_words a.old) r.old result (arena_words a.new) r.new }
{
    let z = size_at(a, c);
    if b.bytes <= z {
        in_place::finish(a, r, c, z, b);
        return Some(c.0 as u32);
    }
    if top_reaches(r, c, z, b) {
        in_place::grow_top(a, r, c, b);
        return Some(c.0 as u32);
    }
    if behind_reaches(a, r, c, z, b) {
        in_place::take_in(a, r, c, z, b);
        return Some(c.0 as u32);
    }
    moved::seek_block(a, r, c, z, b)
}
