// Which sizes a list owns: those from a least to a most one. Settled once for a list, not once for a chunk, and without a look into the table of bins.
// Assumes nothing.
ghost use Rattle.std.specs.Prelude.{◌≡◌, ◌+◌, ◌*◌, ◌≤◌};
ghost use Rattle.audit_lists.specs.Owns.{Numbered, Owns};

use machine::ListKind;
use sizes::{LAST_BIN, LEAST_CHUNK, MOST_FAST, UNSORTED};

// From the least to the most; none where the least is above the most.
#[derive(Clone, Copy)]
pub struct Owned {
    pub least: u64,
    pub most: u64,
}

// No size is above it.
const NO_END: u64 = 18446744073709551615;

// The size of cache list j, and of fast list j.
fn stack_size(j: u32) -> u64
    ensures { result ≡ 32 + 16 * j }
{
    LEAST_CHUNK + 16 * (j as u64)
}

// Lists 7 to 9 own no size.
fn owned_by_fast(j: u32) -> Owned
    ensures { Owns (ListKind.Fast j) result.least result.most }
{
    let s = stack_size(j);
    if MOST_FAST < s {
        return Owned {
            least: s,
            most: MOST_FAST,
        };
    }
    Owned { least: s, most: s }
}

// Unsorted owns every size; another bin those below the next bin's, the last one without end.
fn owned_by_bin(j: u32) -> Owned
    requires { (1 ≤ j) × (j ≤ 126) }
    ensures { Owns (ListKind.Bin j) result.least result.most }
{
    let b = j as usize;
    if b == UNSORTED {
        return Owned {
            least: 0,
            most: NO_END,
        };
    }
    let least = sizes::least_of_bin(b);
    if b == LAST_BIN {
        return Owned {
            least,
            most: NO_END,
        };
    }
    let most = sizes::least_of_bin(b + 1) - 1;
    Owned { least, most }
}

pub fn owned_by(k: ListKind) -> Owned
    requires { Numbered k }
    ensures { Owns k result.least result.most }
{
    match k {
        ListKind::Cache(j) => {
            let s = stack_size(j);
            Owned { least: s, most: s }
        }
        ListKind::Fast(j) => owned_by_fast(j),
        ListKind::Bin(j) => owned_by_bin(j),
    }
}
