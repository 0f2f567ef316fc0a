// A new block is sought by steps 2 to 9. Right behind the old one it is joined to it, otherwise all usable bytes are copied and the old block released.
ghost use Rattle.std.specs.Prelude.{◌≡◌, ◌+◌, ◌*◌, ◌%◌, ◌≤◌, ◌<◌, length, Option, ℕ};
ghost use Rattle.le.specs.Arena.{arena_words};
ghost use Rattle.machine.specs.Writes.{apply};
ghost use Rattle.machine.specs.Resize.{copies};
ghost use Rattle.primitives.specs.Follow.{Has, Does};
ghost use Rattle.resize.specs.States.{Live, Moves, copy_release, sought};

use crate::in_place::widen;
use chunk_fields::copy_usable_word;
use grant::seek;
use release::release;
use sizes::{Chunk, Size};

// n of c's usable words go to d, rising.
fn copy_words(a: &mut [u8], d: Chunk, c: Chunk, n: u64)
    requires { (d.0 % 8 ≡ 0) × (c.0 % 8 ≡ 0) × (d.0 + 16 + 8 * n ≤ length a.old) × (c.0 + 16 + 8 * n ≤ length a.old) }
    ensures { arena_words a.new ≡ apply (copies d.0 c.0 n) (arena_words a.old) }
{
    for i in 0..n {
        copy_usable_word(a, d, c, i);
    }
}

// All usable bytes of c, of size z, go to d, and c is released.
fn move_to(a: &mut [u8], r: &mut [u32], c: Chunk, z: u64, d: Chunk)
    requires { Has (λ h. Moves h c.0 z d.0) (arena_words a.old) r.old }
    ensures { Does (Unit {0}) (λ h. Moves h c.0 z d.0) (copy_release c.0 z d.0) (arena_words a.old) r.old tt (arena_words a.new) r.new }
{
    copy_words(a, d, c, z / 8 - 1);
    release(a, r, c);
}

// A new block for c, of size z.
pub fn seek_block(a: &mut [u8], r: &mut [u32], c: Chunk, z: u64, b: Size) -> Option<u32>
    requires { (z < b.bytes) × Has (λ h. Live h c.0 z) (arena_words a.old) r.old }
    ensures { Does (Option ℕ) (λ h. Live h c.0 z) (sought c.0 z b.bytes) (arena_words a.old) r.old result (arena_words a.new) r.new }
{
    let g = seek(a, r, b);
    let Some(d) = g else {
        return None;
    };
    let new = Chunk(d as u64);
    if new.0 == c.0 + z {
        widen(a, r, c, z, b);
        return Some(c.0 as u32);
    }
    move_to(a, r, c, z, new);
    Some(d)
}
