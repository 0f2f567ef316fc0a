// Whether a chunk may stand in a list, against its definition in the machine. The loop over it stands in the crate audit. Assumes nothing.
ghost use Rattle.std.specs.Prelude.{◌≡◌, List, true, ℕ};
ghost use Rattle.le.specs.Arena.{arena_words};
ghost use Rattle.machine.specs.Audit.{may_stand};
ghost use Rattle.audit_lists.specs.Asks.{Asks};
ghost use Rattle.audit_lists.specs.Owns.{own_size, Owns};
ghost use Rattle.audit_lists.specs.Stand.{Stand};

use crate::asks::key_ok;
use crate::owns::Owned;
use chunk_fields::{Link, back_at};
use machine::ListKind;
use sizes::{Chunk, NONE64};

// The same for bin j, which owns the size s.
fn bin_may_stand(a: &[u8], j: u32, c: Chunk, s: u64, p: Link, q: u64) -> bool
    requires { Stand a.now c.0 s p.0 q × (own_size (ListKind.Bin j) s ≡ true) }
    ensures { (v : ℕ) (r : List ℕ) → result ≡ may_stand v (ListKind.Bin j) (arena_words a.now) r p.0 0 c.0 }
{
    if back_at(a, c).0 != p.0 {
        return false;
    }
    if (j as usize) < sizes::LARGE_BIN {
        return true;
    }
    if p.0 == NONE64 {
        return true;
    }
    s <= q
}

// Whether the chunk c of size s may stand in a list of this kind, which owns the sizes o, after the chunk p of size q (p none: first) and n chunks in all. A
// cached one must have the key that is asked for, if one is.
pub fn may_stand(
    a: &[u8],
    k: ListKind,
    o: Owned,
    asked: Option<u64>,
    c: Chunk,
    s: u64,
    p: Link,
    q: u64,
    n: u32,
) -> bool
    requires { Stand a.now c.0 s p.0 q × Owns k o.least o.most }
    ensures { (v : ℕ) (r : List ℕ) → Asks v r asked → result ≡ may_stand v k (arena_words a.now) r p.0 n c.0 }
{
    if s < o.least {
        return false;
    }
    if o.most < s {
        return false;
    }
    match k {
        ListKind::Cache(_) => n < sizes::CACHE_ROOM && key_ok(a, asked, c),
        ListKind::Fast(_) => true,
        ListKind::Bin(j) => bin_may_stand(a, j, c, s, p, q),
    }
}
