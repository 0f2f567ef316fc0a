// The tiles anew: flags, sizes and end sizes by what is free; and the record of a heap that has no list.
ghost use Rattle.std.specs.Prelude.{◌≡◌, Bool, ℕ, ◌+◌, ◌-◌, ◌≤◌, ◌<◌, ◌%◌, length};
ghost use Rattle.le.specs.Arena.{arena_words};
ghost use Rattle.machine.specs.Heap.{Heap, record_of};
ghost use Rattle.machine.specs.Writes.{apply};
ghost use Rattle.audit_walks.specs.Marks.{Bytes, Flagging};
ghost use Rattle.repair.specs.Repair.{ended, tiles_on};
ghost use Rattle.repair.specs.Told.{Told, Anew, Bare};
ghost use Rattle.repair.specs.Cleared.{Filled};

use audit_walks::UNMET;
use chunk_fields::{set_note, set_size, size_at};
use sizes::{CACHE_COUNTS, Chunk, FAST_HEADS, KEY_LOW, NONE32, REMAINDER_WORD, TOP_WORD};

// The held chunk o of s bytes, with g free bytes right before it, which are one chunk then.
fn end_stretch(a: &mut [u8], o: u64, s: u64, g: u64)
    requires { (o % 16 ≡ 0) × (g % 16 ≡ 0) × (g ≤ o) × (o + s ≤ length a.old) × (length a.old ≤ 262144) × (32 ≤ s) }
    ensures { arena_words a.new ≡ apply (tiles_on (o - g) (ended g s)) (arena_words a.old) }
{
    if g == 0 {
        set_size(a, Chunk(o), s, true);
        return;
    }
    set_size(a, Chunk(o - g), g, true);
    set_size(a, Chunk(o), s, false);
    set_note(a, Chunk(o), g);
}

// All tiles, from the first to the top, whose new place is answered. The marks m tell which chunks a list reached.
pub fn write_tiles(a: &mut [u8], m: &[u8], top: Chunk) -> Chunk
    requires { Bytes a.old m.now × Flagging (arena_words a.old) top.0 }
    ensures { (f : ℕ → Bool) → Told (arena_words a.old) m.now f → Anew f (arena_words a.old) result.0 (arena_words a.new) }
{
    let mut o: u64 = 0;
    let mut g: u64 = 0;
    while o < top.0 {
        let s = size_at(a, Chunk(o));
        if m[(o / 16) as usize] == UNMET {
            end_stretch(a, o, s, g);
            g = 0;
        } else {
            g += s;
        }
        o += s;
    }
    let t = Chunk(o - g);
    let n = a.len() as u64;
    set_size(a, t, n - t.0, true);
    t
}

// The words of the record from i up to j become v.
fn fill(r: &mut [u32], i: usize, j: usize, v: u32)
    requires { (length r.old ≡ 396) × (i ≤ j) × (j ≤ 396) }
    ensures { Filled i j v r.old r.new }
{
    r[i..j].fill(v);
}

// The record's words for the heap of these tiles that has no list: every head, every bin's ends and the last remainder none, the counts 0, the top t. Length, key and
// edition stay.
pub fn clear_lists(r: &mut [u32], t: Chunk)
    requires { (length r.old ≡ 396) × (t.0 < 262144) }
    ensures { (h : Heap) → Bare h r.old t.0 → r.new ≡ record_of h }
{
    fill(r, REMAINDER_WORD, KEY_LOW, NONE32);
    fill(r, CACHE_COUNTS, FAST_HEADS, 0);
    r[TOP_WORD] = t.0 as u32;
}
