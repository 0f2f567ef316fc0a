// Flags, chunk by chunk: P is clear exactly if the chunk before is in a bin, and the previous size is then its size; no binned chunk touches another or the
// top; chunk 0 has P set. Assumes nothing.
ghost use Rattle.std.specs.Prelude.{◌≡◌, ◌%◌};
ghost use Rattle.machine.specs.Heap.{tile};
ghost use Rattle.machine.specs.Audit.{flag_ok};
ghost use Rattle.le.specs.Arena.{arena_words};
ghost use Rattle.audit_walks.specs.Marks.{Bytes, Flagging, FlagsDone, binned_by};

use crate::marks::{BINNED, UNMARKED};
use chunk_fields::{note_at, size_word_at};
use machine::Fault;
use sizes::{Chunk, SizeWord};

// p, prev: its P and previous size; u: the mark of the chunk before, s: its size; v: the mark of this one.
pub fn flag_ok(p: u64, prev: u64, u: u8, s: u64, v: u8) -> bool
    ensures { result ≡ flag_ok (tile 0 p prev) (binned_by u) s (binned_by v) }
{
    if u != BINNED {
        return p == 1;
    }
    if p != 0 {
        return false;
    }
    if prev != s {
        return false;
    }
    if v == BINNED {
        return false;
    }
    true
}

// P alone: of a good tile bits 1 to 3 are clear.
fn p_of(x: SizeWord) -> u64
    ensures { result ≡ x.0 % 2 }
{
    x.0 % 2
}

// The first wrong flag, or sound. u: the mark of the chunk before, s: its size; the top counts as binned.
pub fn flag_fault(a: &[u8], top: Chunk, m: &[u8]) -> Result<(), Fault>
    requires { Bytes a.now m.now × Flagging (arena_words a.now) top.0 }
    ensures { FlagsDone (arena_words a.now) m.now result }
{
    let e = top.0 as usize;
    let mut o: usize = 0;
    let mut u = UNMARKED;
    let mut s: u64 = 0;
    while o < e {
        let x = size_word_at(a, Chunk(o as u64));
        let v = m[o / 16];
        if !flag_ok(p_of(x), note_at(a, Chunk(o as u64)), u, s, v) {
            return Err(Fault::Flag(o as u32));
        }
        u = v;
        s = x.size();
        o += s as usize;
    }
    let y = size_word_at(a, top);
    if !flag_ok(p_of(y), note_at(a, top), u, s, BINNED) {
        let at = e as u32;
        return Err(Fault::Flag(at));
    }
    Ok(())
}
