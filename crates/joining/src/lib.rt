// Joining: consolidate, and no last remainder. Assumes nothing.
#![tactic(auto)]

ghost use Rattle.le.specs.Arena.{arena_words};
ghost use Rattle.machine.specs.Release.{joining};
ghost use Rattle.sound.specs.Relation.{Good};
ghost use Rattle.primitives.specs.Follow.{Has, Does};

use consolidate::consolidate;
use sizes::{NONE32, REMAINDER_WORD};

pub fn joining(a: &mut [u8], r: &mut [u32])
    requires { Has Good (arena_words a.old) r.old }
    ensures { Does (Unit {0}) Good joining (arena_words a.old) r.old tt (arena_words a.new) r.new }
{
    consolidate(a, r);
    r[REMAINDER_WORD] = NONE32;
}
