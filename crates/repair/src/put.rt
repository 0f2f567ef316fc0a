// What is free goes to unsorted, the lowest first.
ghost use Rattle.le.specs.Arena.{arena_words};
ghost use Rattle.machine.specs.Heap.{Heap};
ghost use Rattle.primitives.specs.Follow.{Ok, Has, Gave};
ghost use Rattle.repair.specs.Repair.{put_all};
ghost use Rattle.repair.specs.Told.{Unlisted, free_of};

use chunk_fields::{Link, size_at, size_word_at};
use primitives::link_in;
use sizes::{Chunk, NONE64, UNSORTED};

// Each free chunk, that is one whose next chunk has P clear, goes last in unsorted.
pub fn put_all(a: &mut [u8], r: &mut [u32], top: Chunk)
    requires { Has (λ h. Unlisted h top.0) (arena_words a.old) r.old }
    ensures { (h : Heap) → Ok h (arena_words a.old) r.old → Unlisted h top.0
        → Gave (Unit {0}) (put_all (free_of h) h) tt (arena_words a.old) (arena_words a.new) r.new }
{
    let mut o: u64 = 0;
    let mut p = Link(NONE64);
    while o < top.0 {
        let s = size_at(a, Chunk(o));
        let x = size_word_at(a, Chunk(o + s));
        if !x.has_p() {
            link_in(a, r, UNSORTED, Chunk(o), p, Link(NONE64));
            p = Link(o);
        }
        o += s;
    }
}
