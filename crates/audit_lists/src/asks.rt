// Whether a cached chunk is asked for the key, and for which: version 1 of the rules does not ask. Settled before a walk, not at each chunk. Assumes nothing.
ghost use Rattle.std.specs.Prelude.{◌≡◌, List, ℕ, ◌+◌, ◌%◌, ◌≤◌, length};
ghost use Rattle.le.specs.Arena.{arena_words};
ghost use Rattle.machine.specs.Audit.{key_ok};
ghost use Rattle.audit_lists.specs.Asks.{Asks};

use chunk_fields::{key_at, key_in};
use sizes::Chunk;

// The first version that asks.
const KEYED_FROM: u32 = 2;

// The key that each must have, by version v of the rules, of a heap with the record r; none: it is not asked.
pub fn asked_by(r: &[u32], v: u32) -> Option<u64>
    requires { length r.now ≡ 396 }
    ensures { Asks v r.now result }
{
    if v < KEYED_FROM {
        return None;
    }
    Some(key_in(r))
}

// Whether the cached chunk c has the key that is asked for, if one is.
pub fn key_ok(a: &[u8], asked: Option<u64>, c: Chunk) -> bool
    requires { (c.0 % 8 ≡ 0) × (c.0 + 32 ≤ length a.now) }
    ensures { (v : ℕ) (r : List ℕ) → Asks v r asked → result ≡ key_ok v (arena_words a.now) r c.0 }
{
    match asked {
        Some(key) => key_at(a, c) == key,
        None => true,
    }
}
