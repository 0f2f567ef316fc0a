// Step 7 of grant: the last chunk of the first non-empty bin above b's.
ghost use Rattle.std.specs.Prelude.{◌≡◌, ◌+◌, ◌≤◌, ◌<◌, ltb, length, Option, ℕ};
ghost use Rattle.sizes.specs.Limits.{large};
ghost use Rattle.le.specs.Arena.{arena_words};
ghost use Rattle.machine.specs.Grant.{step7};
ghost use Rattle.sound.specs.Relation.{Good};
ghost use Rattle.primitives.specs.Follow.{Has, Does};
ghost use Rattle.grant_step_8.specs.Taken.{remainder?};
ghost use Rattle.grant_steps_6_7.specs.Finds.{FirstBin};

use grant_step_8::{Rest, step8};
use sizes::{Chunk, LARGE, LAST_BIN, NONE32, Size};

// The first non-empty bin above j.
fn first_bin(r: &[u32], j: usize) -> Option<u32>
    requires { (j ≤ 126) × (length r.now ≡ 396) }
    ensures { FirstBin r.now j result }
{
    for i in j + 1..=LAST_BIN {
        if r[sizes::bin_last(i)] != NONE32 {
            return Some(i as u32);
        }
    }
    None
}

// With b < 1,024 the rest becomes last remainder.
fn rest_for(b: u64) -> Rest
    ensures { remainder? result ≡ ltb b large }
{
    if b < LARGE {
        return Rest::LastRemainder;
    }
    Rest::Plain
}

pub fn step7(a: &mut [u8], r: &mut [u32], b: Size) -> Option<u32>
    requires { Has Good (arena_words a.old) r.old }
    ensures { Does (Option ℕ) Good (step7 b.bytes) (arena_words a.old) r.old result (arena_words a.new) r.new }
{
    let found = first_bin(r, sizes::bin_of(b.bytes));
    match found {
        None => {
            return None;
        }
        Some(i) => {
            let j = i as usize;
            let c = Chunk(r[sizes::bin_last(j)] as u64);
            return step8(a, r, j, c, b, rest_for(b.bytes));
        }
    }
}
