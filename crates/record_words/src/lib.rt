// The record's words out of its bytes, and back: all of them, or those of one cache list, where a step changed no other part of the heap. Assumes nothing.
#![tactic(auto)]

ghost use Rattle.std.specs.Prelude.{◌≡◌, ◌<◌, length};
ghost use Rattle.le.specs.Number.{words, bytes};
ghost use Rattle.machine.specs.Calls.{words_of};
ghost use Rattle.record_words.specs.CacheOnly.{CacheOnly, Changes};

use sizes::{CACHE_COUNTS, CACHE_HEADS};

pub fn read_words(b: &[u8], r: &mut [u32])
    requires { (length b.now ≡ 1584) × (length r.old ≡ 396) }
    ensures { r.new ≡ words 4 396 b.now }
{
    for (i, w) in r.iter_mut().enumerate() {
        *w = le::read(b, 4 * i);
    }
}

pub fn write_words(b: &mut [u8], r: &[u32])
    requires { (length b.old ≡ 1584) × (length r.now ≡ 396) }
    ensures { b.new ≡ bytes 4 r.now }
{
    for (i, w) in r.iter().enumerate() {
        le::write(b, 4 * i, *w);
    }
}

// Which of the record's words a step changed: those of one cache list, or any.
// Kept: an `Option<usize>` would be no plainer, since its `None` reads as "nothing changed", where `Any` means that each word may have.
#[derive(Clone, Copy)]
pub enum Changed {
    CacheList(usize),
    Any,
}

// The two words of cache list k go back: nothing else of the record changed.
fn put_cache(control: &mut [u8], r: &[u32], k: usize)
    requires { (length control.old ≡ 1584) × (length r.now ≡ 396) × (k < 64) × CacheOnly k (words_of control.old) r.now }
    ensures { control.new ≡ bytes 4 r.now }
{
    let head = CACHE_HEADS + k;
    let count = CACHE_COUNTS + k;
    le::write(control, 4 * head, r[head]);
    le::write(control, 4 * count, r[count]);
}

// The words that a step changed go back.
pub fn write_changed(control: &mut [u8], r: &[u32], changed: Changed)
    requires { (length control.old ≡ 1584) × (length r.now ≡ 396) × Changes changed (words_of control.old) r.now }
    ensures { control.new ≡ bytes 4 r.now }
{
    match changed {
        Changed::CacheList(k) => {
            put_cache(control, r, k);
        }
        Changed::Any => {
            write_words(control, r);
        }
    }
}
