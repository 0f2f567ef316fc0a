// What the audit asks of one list, each against its definition in the machine: its kind, its mark, how its links are stored, its head and end in the
// record, the sizes it owns, the key of its chunks, their skip links, whether a chunk was met. The loop over them stands in the crate audit. Assumes nothing.
#![tactic(auto)]

mod owns; // owns.rt: which sizes a list owns
mod asks; // asks.rt: which key a cached chunk is asked for
mod stands; // stands.rt: whether a chunk may stand in a list
mod skips; // skips.rt: whether its chunks' skip links are right

ghost use Rattle.std.specs.Prelude.{◌≡◌, ◌<◌, length, get_or};
ghost use Rattle.sizes.specs.Layout.{key_low};
ghost use Rattle.machine.specs.View.{up, kind_at, head_word, links_by};
ghost use Rattle.machine.specs.Audit.{may_end};
ghost use Rattle.audit_lists.specs.Listed.{unmet, mark_of, tail_word};

pub use asks::asked_by;
use audit_walks::{BINNED, STACKED, UNMET};
use chunk_fields::{Link, link_of};
use machine::ListKind;
pub use owns::{Owned, owned_by};
use sizes::{BINS_FROM, FAST_FROM, PLAIN};
pub use skips::skips_ok;
pub use stands::may_stand;

// The list of the audit's number i.
pub fn kind_at(i: u32) -> ListKind
    ensures { result ≡ kind_at i }
{
    if i < FAST_FROM {
        return ListKind::Cache(i);
    }
    if i < BINS_FROM {
        return ListKind::Fast(i - FAST_FROM);
    }
    ListKind::Bin(sizes::bin_of_list(i) as u32)
}

// The mark of a chunk that such a list has.
pub fn mark(k: ListKind) -> u8
    ensures { result ≡ mark_of k }
{
    match k {
        ListKind::Cache(_) => STACKED,
        ListKind::Fast(_) => STACKED,
        ListKind::Bin(_) => BINNED,
    }
}

// How such a list's links are stored where the record's edition is d: those of a bin are as they are.
pub fn links_by(k: ListKind, d: u32) -> u32
    ensures { result ≡ links_by k d }
{
    match k {
        ListKind::Cache(_) => d,
        ListKind::Fast(_) => d,
        ListKind::Bin(_) => PLAIN,
    }
}

// Whether c is a chunk, not the top, that was not met before.
pub fn unmet(m: &[u8], c: Link) -> bool
    ensures { result ≡ unmet m.now c.0 }
{
    if c.0 % 16 != 0 {
        return false;
    }
    let i = (c.0 / 16) as usize;
    if m.len() <= i {
        return false;
    }
    m[i] == UNMET
}

pub fn head(r: &[u32], k: ListKind) -> Link
    requires { (length r.now ≡ 396) × (head_word k < key_low) }
    ensures { result.0 ≡ up (get_or r.now (head_word k) 0) }
{
    match k {
        ListKind::Cache(j) => link_of(r[sizes::CACHE_HEADS + (j as usize)]),
        ListKind::Fast(j) => link_of(r[sizes::FAST_HEADS + (j as usize)]),
        ListKind::Bin(j) => {
            let i = sizes::bin_first(j as usize);
            link_of(r[i])
        }
    }
}

// Whether the list may end after the chunk p and n chunks in all.
pub fn may_end(r: &[u32], k: ListKind, p: Link, n: u32) -> bool
    requires { (length r.now ≡ 396) × (tail_word k < key_low) }
    ensures { result ≡ may_end k r.now p.0 n }
{
    match k {
        ListKind::Cache(j) => r[sizes::CACHE_COUNTS + (j as usize)] == n,
        ListKind::Fast(_) => true,
        ListKind::Bin(j) => {
            let i = sizes::bin_last(j as usize);
            link_of(r[i]).0 == p.0
        }
    }
}
