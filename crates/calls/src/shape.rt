// The shape of a call's two buffers, judged by their lengths alone.
ghost use Rattle.std.specs.Prelude.{◌≡◌};
ghost use Rattle.machine.specs.Calls.{arena_allowed?, shape?};

use sizes::{LEAST_ARENA, MOST_ARENA, RECORD_BYTES};

// An arena's length is a multiple of 16 from 32 to 262,144.
pub fn allowed(n: usize) -> bool
    ensures { result ≡ arena_allowed? n }
{
    if n % 16 != 0 {
        return false;
    }
    if n < LEAST_ARENA {
        return false;
    }
    n <= MOST_ARENA
}

// Both buffers: the record has 1,584 bytes.
pub fn shaped(arena: &[u8], control: &[u8]) -> bool
    ensures { result ≡ shape? arena.now control.now }
{
    if control.len() != RECORD_BYTES {
        return false;
    }
    allowed(arena.len())
}
