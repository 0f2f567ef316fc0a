// Step 6 of grant: the smallest chunk of b's own large bin that is at least b, the second of its equals.
ghost use Rattle.std.specs.Prelude.{◌≡◌, ◌≤◌, length, Option, ℕ};
ghost use Rattle.le.specs.Arena.{arena_words};
ghost use Rattle.machine.specs.Heap.{Heap};
ghost use Rattle.machine.specs.Grant.{step6};
ghost use Rattle.sound.specs.Relation.{Good};
ghost use Rattle.primitives.specs.Follow.{Ok, Has, Does};
ghost use Rattle.primitives.specs.Ends.{Leads};
ghost use Rattle.grant_steps_6_7.specs.Finds.{LastFit, equal_at, Spelled, Standing, SecondEqual};

use chunk_fields::{Link, back_at, link_of, size_at};
use grant_step_8::{Rest, step8};
use sizes::{Chunk, LARGE, NONE64, Size};

// The last chunk of bin j of at least b bytes, none where there is none: a large bin falls, so it is one of the smallest such.
fn least_fit(a: &[u8], r: &[u32], j: usize, b: Size) -> Link
    requires { (1 ≤ j) × (j ≤ 126) × Has (λ h. Unit {0}) (arena_words a.now) r.now }
    ensures { (h : Heap) → Ok h (arena_words a.now) r.now → LastFit h j b.bytes result.0 }
{
    let mut c = link_of(r[sizes::bin_last(j)]);
    while c.0 != NONE64 {
        if b.bytes <= size_at(a, Chunk(c.0)) {
            return c;
        }
        c = back_at(a, Chunk(c.0));
    }
    c
}

// Whether p is a chunk of size z.
fn equal_at(a: &[u8], p: Link, z: u64) -> bool
    requires { Leads (length a.now) p.0 }
    ensures { result ≡ equal_at (arena_words a.now) p.0 z }
{
    if p.0 == NONE64 {
        return false;
    }
    size_at(a, Chunk(p.0)) == z
}

// The second of c's equals, c being the last of them; c where it is the only one.
fn second_equal(a: &[u8], c: Chunk) -> Chunk
    requires { Spelled (λ h. Standing h c.0) (arena_words a.now) }
    ensures { SecondEqual (arena_words a.now) c.0 result.0 }
{
    let z = size_at(a, c);
    let mut second = c;
    let mut first = back_at(a, c);
    if !equal_at(a, first, z) {
        return c;
    }
    let mut before = back_at(a, Chunk(first.0));
    while equal_at(a, before, z) {
        second = Chunk(first.0);
        first = before;
        before = back_at(a, Chunk(first.0));
    }
    second
}

pub fn step6(a: &mut [u8], r: &mut [u32], b: Size) -> Option<u32>
    requires { Has Good (arena_words a.old) r.old }
    ensures { Does (Option ℕ) Good (step6 b.bytes) (arena_words a.old) r.old result (arena_words a.new) r.new }
{
    if b.bytes < LARGE {
        return None;
    }
    let j = sizes::bin_of(b.bytes);
    let c = least_fit(a, r, j, b);
    if c.0 == NONE64 {
        return None;
    }
    let d = second_equal(a, Chunk(c.0));
    step8(a, r, j, d, b, Rest::Plain)
}
