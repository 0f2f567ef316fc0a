// Document 01's step 5: the unsorted chunks, from the last, are granted, cached or binned.
#![tactic(auto)]

mod sort; // sort.rt: where a chunk goes that was taken out

ghost use Rattle.std.specs.Prelude.{◌≡◌, ◌+◌, ◌<◌, length, Option, ℕ};
ghost use Rattle.le.specs.Arena.{arena_words};
ghost use Rattle.machine.specs.Grant.{split_lone, turn, swept, step5};
ghost use Rattle.machine.specs.declared.{Turn.Turn, Turn.TheVariants.Granted};
ghost use Rattle.sound.specs.Relation.{Good};
ghost use Rattle.primitives.specs.Follow.{Has, Does};
ghost use Rattle.grant_step_5.specs.Turns.{Waits, lone_in, take_out};
ghost use Rattle.grant_step_5.specs.Loop.{Full};

use chunk_fields::size_at;
use grant_step_8::split;
use machine::Turn;
use primitives::{set_p, take_cache, unlink};
use sizes::{Chunk, LARGE, NONE32, REMAINDER_WORD, Size, UNSORTED};
use sort::{keep, sort_in};

// Whether c, the last of unsorted and of size z, is the only one, the last remainder, and large enough to be split for a small b.
fn is_lone(r: &[u32], c: Chunk, z: u64, b: Size) -> bool
    requires { length r.now ≡ 396 }
    ensures { result ≡ lone_in r.now b.bytes c.0 z }
{
    if LARGE <= b.bytes {
        return false;
    }
    if r[sizes::bin_first(UNSORTED)] as u64 != c.0 {
        return false;
    }
    if r[REMAINDER_WORD] as u64 != c.0 {
        return false;
    }
    b.bytes + 32 < z
}

// c, the lone chunk, is split at b: the rest stays the one unsorted chunk and becomes last remainder.
fn split_lone(a: &mut [u8], r: &mut [u32], c: Chunk, z: u64, b: Size)
    requires { (b.bytes + 32 < z) × Has (λ h. Waits h c.0 z) (arena_words a.old) r.old }
    ensures { Does Turn (λ h. Waits h c.0 z) (split_lone b.bytes c.0) (arena_words a.old) r.old (Granted c.0) (arena_words a.new) r.new }
{
    unlink(a, r, UNSORTED, c);
    split(a, r, c, z, b);
    r[REMAINDER_WORD] = (c.0 + b.bytes) as u32;
}

// c, an unsorted chunk of size z, is taken out: kept if its size is b, else binned.
fn take_out(a: &mut [u8], r: &mut [u32], c: Chunk, z: u64, b: Size) -> Turn
    requires { Has (λ h. Waits h c.0 z) (arena_words a.old) r.old }
    ensures { Does Turn (λ h. Waits h c.0 z) (take_out b.bytes c.0) (arena_words a.old) r.old result (arena_words a.new) r.new }
{
    unlink(a, r, UNSORTED, c);
    if z == b.bytes {
        set_p(a, Chunk(c.0 + z));
        return keep(a, r, c, b);
    }
    sort_in(a, r, c, z);
    Turn::Binned
}

// One turn: the last of unsorted.
fn turn(a: &mut [u8], r: &mut [u32], b: Size) -> Turn
    requires { Has Good (arena_words a.old) r.old }
    ensures { Does Turn Good (turn b.bytes) (arena_words a.old) r.old result (arena_words a.new) r.new }
{
    let last = r[sizes::bin_last(UNSORTED)];
    if last == NONE32 {
        return Turn::Empty;
    }
    let c = Chunk(last as u64);
    let z = size_at(a, c);
    if is_lone(r, c, z, b) {
        split_lone(a, r, c, z, b);
        return Turn::Granted(last);
    }
    take_out(a, r, c, z, b)
}

// The end: the head of b's cache list if one was cached.
fn swept(a: &mut [u8], r: &mut [u32], b: Size, got: bool) -> Option<u32>
    requires { Has (Full b.bytes got) (arena_words a.old) r.old }
    ensures { Does (Option ℕ) (Full b.bytes got) (swept b.bytes got) (arena_words a.old) r.old result (arena_words a.new) r.new }
{
    if got {
        let k = sizes::cache_list(b.bytes);
        let c = take_cache(a, r, k);
        return Some(c.0 as u32);
    }
    None
}

pub fn step5(a: &mut [u8], r: &mut [u32], b: Size) -> Option<u32>
    requires { Has Good (arena_words a.old) r.old }
    ensures { Does (Option ℕ) Good (step5 b.bytes) (arena_words a.old) r.old result (arena_words a.new) r.new }
{
    let mut got = false;
    loop {
        let t = turn(a, r, b);
        match t {
            Turn::Granted(c) => {
                return Some(c);
            }
            Turn::Cached => {
                got = true;
            }
            Turn::Binned => {}
            Turn::Empty => {
                return swept(a, r, b, got);
            }
        }
    }
}
