// Whether the skip links of a list's chunks are right, against its definition in the machine. Only unsorted and the bins of large chunks have them; the
// versions of the rules before the third do not ask. Assumes nothing.
ghost use Rattle.std.specs.Prelude.{◌≡◌, ◌<◌, length};
ghost use Rattle.le.specs.Arena.{arena_words};
ghost use Rattle.sizes.specs.Layout.{key_low};
ghost use Rattle.machine.specs.View.{head_word};
ghost use Rattle.machine.specs.Audit.{skips_ok};
ghost use Rattle.audit_lists.specs.Linked.{list_of, KindWalk};

use crate::head;
use machine::ListKind;
use sizes::{LARGE_BIN, UNSORTED};

// The first version that asks.
const SKIPS_FROM: u32 = 3;

// By version v of the rules, of a list of this kind that can be walked.
pub fn skips_ok(a: &[u8], r: &[u32], k: ListKind, v: u32) -> bool
    requires { (length r.now ≡ 396) × (head_word k < key_low) × KindWalk k (arena_words a.now) r.now }
    ensures { result ≡ skips_ok v k (arena_words a.now) (list_of (arena_words a.now) r.now k) }
{
    if v < SKIPS_FROM {
        return true;
    }
    match k {
        ListKind::Cache(_) => true,
        ListKind::Fast(_) => true,
        ListKind::Bin(j) => {
            let b = j as usize;
            let x = head(r, k);
            if b == UNSORTED {
                return skip_links::puts_stand(a, x);
            }
            if b < LARGE_BIN {
                return true;
            }
            skip_links::ring_stands(a, x)
        }
    }
}
