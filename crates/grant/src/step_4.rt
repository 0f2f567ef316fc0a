// Step 4 of grant: a large request consolidates where some fast list has a chunk.
ghost use Rattle.le.specs.Arena.{arena_words};
ghost use Rattle.machine.specs.Release.{consolidate};
ghost use Rattle.machine.specs.Grant.{step4};
ghost use Rattle.sound.specs.Relation.{Good};
ghost use Rattle.primitives.specs.Follow.{Has, Does};

use consolidate::{any_fast, consolidate};
use sizes::{LARGE, Size};

pub fn step4(a: &mut [u8], r: &mut [u32], b: Size)
    requires { Has Good (arena_words a.old) r.old }
    ensures { Does (Unit {0}) Good (step4 b.bytes) (arena_words a.old) r.old tt (arena_words a.new) r.new }
{
    if b.bytes < LARGE {
        return;
    }
    if any_fast(r) {
        consolidate(a, r);
    }
}
