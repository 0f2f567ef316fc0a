// The audit: sound, or the first fault of arena and record, in the order record, tiles, lists, flags. By the newest rules, or by those of a version that is
// told: an older image is held against the rules of its own. Linear in the arena: each tile is read twice, each chunk of a list once, and one of unsorted or
// of a bin of large chunks once more, for its skip links. The walks over the tiles stand in the crate audit_walks, the marks in call_look.rt.
// Assumes nothing.
#![tactic(auto)]

mod lists; // lists.rt: the nested loop over lists and chunks
mod call_look; // call_look.rt: what a call finds before it writes

ghost use Rattle.std.specs.Prelude.{◌≡◌, length};
ghost use Rattle.le.specs.Arena.{arena_words};
ghost use Rattle.machine.specs.Audit.{edition?};
ghost use Rattle.audit_walks.specs.Marks.{Bytes, Clear};
ghost use Rattle.audit.specs.Done.{AuditDone};

pub use call_look::{audit_by, audit_words, look_at};
use chunk_fields::edition_in;
use machine::Fault;
use sizes::{Chunk, MIXED, PLAIN};

// Whether there is an edition d.
pub fn is_edition(d: u32) -> bool
    ensures { result ≡ edition? d }
{
    d == PLAIN || d == MIXED
}

// The marks m, all clear and one for each 16 bytes of arena, are lent: in a sound heap the unmet chunks are then exactly the live blocks.
pub fn audit_marks(a: &[u8], r: &[u32], m: &mut [u8], v: u32) -> Result<(), Fault>
    requires { Bytes a.now m.old × (length r.now ≡ 396) × Clear m.old }
    ensures { AuditDone v (arena_words a.now) r.now result m.new }
{
    if r[sizes::LENGTH_WORD] as usize != a.len() {
        return Err(Fault::Record);
    }
    if !is_edition(edition_in(r)) {
        return Err(Fault::Record);
    }
    let top = Chunk(r[sizes::TOP_WORD] as u64);
    audit_walks::tile_fault(a, top, m)?;
    lists::list_fault(a, r, m, v)?;
    audit_walks::flag_fault(a, top, m)
}
