// A split, and document 01's step 8: a chunk that is large enough leaves its bin and is given, whole or in part.
#![tactic(auto)]

ghost use Rattle.std.specs.Prelude.{ℕ, ◌+◌, ◌≤◌, Option};
ghost use Rattle.le.specs.Arena.{arena_words};
ghost use Rattle.machine.specs.Grant.{split, carve, step8};
ghost use Rattle.sound.specs.Relation.{Good};
ghost use Rattle.primitives.specs.Follow.{Has, Does};
ghost use Rattle.grant_step_8.specs.Taken.{Taken, Fit, remainder?};

use chunk_fields::{set_note, set_size, size_at};
use primitives::{put_first, set_p, unlink};
use sizes::{Chunk, LEAST_CHUNK, REMAINDER_WORD, Size, UNSORTED};

// What becomes of a rest, which goes first in unsorted: nothing more, or it is the last remainder too.
#[derive(Clone, Copy)]
pub enum Rest {
    Plain,
    LastRemainder,
}

// The chunk c of size z, which is out of its bin, is cut at b; the rest goes first in unsorted.
pub fn split(a: &mut [u8], r: &mut [u32], c: Chunk, z: u64, b: Size)
    requires { (b.bytes + 32 ≤ z) × Has (λ h. Taken h c.0 z) (arena_words a.old) r.old }
    ensures { Does (Unit {0}) (λ h. Taken h c.0 z) (split c.0 b.bytes) (arena_words a.old) r.old tt (arena_words a.new) r.new }
{
    set_size(a, c, b.bytes, true);
    set_size(a, Chunk(c.0 + b.bytes), z - b.bytes, true);
    set_note(a, Chunk(c.0 + z), z - b.bytes);
    put_first(a, r, UNSORTED, Chunk(c.0 + b.bytes));
}

// The same chunk is given whole where the rest would be too small, else split.
fn carve(a: &mut [u8], r: &mut [u32], c: Chunk, z: u64, b: Size, rest: Rest)
    requires { (b.bytes ≤ z) × Has (λ h. Taken h c.0 z) (arena_words a.old) r.old }
    ensures { Does (Unit {0}) (λ h. Taken h c.0 z) (carve c.0 b.bytes (remainder? rest)) (arena_words a.old) r.old tt (arena_words a.new) r.new }
{
    if z - b.bytes < LEAST_CHUNK {
        set_p(a, Chunk(c.0 + z));
        return;
    }
    split(a, r, c, z, b);
    match rest {
        Rest::LastRemainder => {
            r[REMAINDER_WORD] = (c.0 + b.bytes) as u32;
        }
        Rest::Plain => {}
    }
}

// The chunk c leaves bin j, which has it, and is carved.
pub fn step8(a: &mut [u8], r: &mut [u32], j: usize, c: Chunk, b: Size, rest: Rest) -> Option<u32>
    requires { Has (λ h. Good h × Fit h j c.0 b.bytes) (arena_words a.old) r.old }
    ensures { Does (Option ℕ) (λ h. Good h × Fit h j c.0 b.bytes) (step8 j c.0 b.bytes (remainder? rest)) (arena_words a.old) r.old result (arena_words a.new) r.new }
{
    let z = size_at(a, c);
    unlink(a, r, j, c);
    carve(a, r, c, z, b, rest);
    Some(c.0 as u32)
}
