// The repair of words, and of bytes.
ghost use Rattle.std.specs.Prelude.{◌≡◌, true, length};
ghost use Rattle.le.specs.Arena.{arena_words};
ghost use Rattle.machine.specs.Audit.{audit_by};
ghost use Rattle.audit_walks.specs.Marks.{Bytes, Clear};
ghost use Rattle.audit_reached.specs.Reached.{tiled?};
ghost use Rattle.repair.specs.Told.{Mended};
ghost use Rattle.repair.specs.RepairCall.{after_repair, repair_by, repair_call};

use crate::Unmended;
use crate::anew::{clear_lists, write_tiles};
use crate::put::put_all;
use audit_walks::UNMARKED;
use sizes::{Chunk, NEWEST, TOP_WORD};

// The marks that an audit left, cleared.
fn clear_marks(m: &mut [u8])
    ensures { Clear m.new }
{
    m.fill(UNMARKED);
}

// The heap of words and record, in which the audit by version v of the rules finds no fault of the record or of a tile. The marks m, all clear and one for each 16
// bytes of arena, are lent.
fn mend(a: &mut [u8], r: &mut [u32], m: &mut [u8], v: u32)
    requires { Bytes a.old m.old × (length r.old ≡ 396) × (tiled? (audit_by v (arena_words a.old) r.old) ≡ true) × Clear m.old }
    ensures { Mended v (arena_words a.old) r.old (arena_words a.new) r.new }
{
    let top = Chunk(r[TOP_WORD] as u64);
    let _ = audit_walks::tile_fault(a, top, m);
    audit_reached::reach(a, r, m, v);
    let t = write_tiles(a, m, top);
    clear_lists(r, t);
    put_all(a, r, t);
}

// By version v of the rules. The audit and the walk have one array of marks, the largest, so that a repair takes no more stack than an audit.
pub fn repair_by(arena: &mut [u8], control: &mut [u8], v: u32) -> Result<(), Unmended>
    ensures { after_repair arena.new control.new result ≡ repair_by v arena.old control.old }
{
    if !calls::shaped(arena, control) {
        return Err(Unmended::Shape);
    }
    let mut r = [0u32; 396];
    record_words::read_words(control, &mut r);
    let mut m = [UNMARKED; 16384];
    let x = audit::audit_marks(arena, &r, &mut m, v);
    if machine::is_sound(x) {
        return Ok(());
    }
    if !audit_reached::tiled(x) {
        return Err(Unmended::Faulty);
    }
    clear_marks(&mut m);
    mend(arena, &mut r, &mut m, v);
    record_words::write_words(control, &r);
    Ok(())
}

pub fn repair(arena: &mut [u8], control: &mut [u8]) -> Result<(), Unmended>
    ensures { after_repair arena.new control.new result ≡ repair_call arena.old control.old }
{
    repair_by(arena, control, NEWEST)
}
