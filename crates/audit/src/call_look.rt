// A look: the audit with marks of its own, and of a sound heap whether mem is a live block's. Assumes nothing.
ghost use Rattle.std.specs.Prelude.{◌≡◌, leb, length};
ghost use Rattle.le.specs.Arena.{arena_words};
ghost use Rattle.sizes.specs.Offsets.{chunk_of};
ghost use Rattle.machine.specs.Lists.{both};
ghost use Rattle.machine.specs.Audit.{audit_by, audit_of};
ghost use Rattle.audit_lists.specs.Listed.{unmet};
ghost use Rattle.audit_walks.specs.Marks.{ArenaBytes, Bytes, Clear};
ghost use Rattle.audit.specs.Looks.{look_by, look_at};

use crate::audit_marks;
use audit_walks::UNMARKED;
use chunk_fields::Link;
use machine::Fault;
use sizes::{Mem, NEWEST};

// Whether the marks of an audit say that mem is a live block's.
fn is_live(m: &[u8], mem: Mem) -> bool
    ensures { result ≡ both (leb 16 mem.0) (unmet m.now (chunk_of mem.0)) }
{
    if mem.0 < 16 {
        return false;
    }
    audit_lists::unmet(m, Link(mem.chunk().0))
}

fn look_with(a: &[u8], r: &[u32], m: &mut [u8], v: u32, mem: Mem) -> Result<bool, Fault>
    requires { Bytes a.now m.old × (length r.now ≡ 396) × Clear m.old }
    ensures { result ≡ look_by v (arena_words a.now) r.now mem.0 }
{
    audit_marks(a, r, m, v)?;
    Ok(is_live(m, mem))
}

// The marks are cleared in four sizes, never more bytes than the arena has, since an array has one length in this language.
fn look_by(a: &[u8], r: &[u32], v: u32, mem: Mem) -> Result<bool, Fault>
    requires { ArenaBytes a.now × (length r.now ≡ 396) }
    ensures { result ≡ look_by v (arena_words a.now) r.now mem.0 }
{
    if a.len() <= 512 {
        let mut m = [UNMARKED; 32];
        return look_with(a, r, &mut m, v, mem);
    }
    if a.len() <= 8192 {
        let mut m = [UNMARKED; 512];
        return look_with(a, r, &mut m, v, mem);
    }
    if a.len() <= 49152 {
        let mut m = [UNMARKED; 3072];
        return look_with(a, r, &mut m, v, mem);
    }
    let mut m = [UNMARKED; 16384];
    look_with(a, r, &mut m, v, mem)
}

// By the newest rules.
pub fn look_at(a: &[u8], r: &[u32], mem: Mem) -> Result<bool, Fault>
    requires { ArenaBytes a.now × (length r.now ≡ 396) }
    ensures { result ≡ look_at (arena_words a.now) r.now mem.0 }
{
    look_by(a, r, NEWEST, mem)
}

// The audit by version v of the rules. The answer does not depend on the block that a look asks about.
pub fn audit_by(a: &[u8], r: &[u32], v: u32) -> Result<(), Fault>
    requires { ArenaBytes a.now × (length r.now ≡ 396) }
    ensures { result ≡ audit_by v (arena_words a.now) r.now }
{
    look_by(a, r, v, Mem(0))?;
    Ok(())
}

pub fn audit_words(a: &[u8], r: &[u32]) -> Result<(), Fault>
    requires { ArenaBytes a.now × (length r.now ≡ 396) }
    ensures { result ≡ audit_of (arena_words a.now) r.now }
{
    audit_by(a, r, NEWEST)
}
