// The step of grant that takes from the top, 9.
ghost use Rattle.std.specs.Prelude.{Option, ℕ};
ghost use Rattle.le.specs.Arena.{arena_words};
ghost use Rattle.machine.specs.Grant.{step9};
ghost use Rattle.sound.specs.Relation.{Good};
ghost use Rattle.primitives.specs.Follow.{Has, Does};

use chunk_fields::set_size;
use sizes::{Chunk, LENGTH_WORD, Size, TOP_WORD};

pub fn step9(a: &mut [u8], r: &mut [u32], b: Size) -> Option<u32>
    requires { Has Good (arena_words a.old) r.old }
    ensures { Does (Option ℕ) Good (step9 b.bytes) (arena_words a.old) r.old result (arena_words a.new) r.new }
{
    let top = Chunk(r[TOP_WORD] as u64);
    let s = r[LENGTH_WORD] as u64 - top.0;
    if s < b.bytes + 32 {
        return None;
    }
    set_size(a, top, b.bytes, true);
    set_size(a, Chunk(top.0 + b.bytes), s - b.bytes, true);
    r[TOP_WORD] = (top.0 + b.bytes) as u32;
    Some(top.0 as u32)
}
