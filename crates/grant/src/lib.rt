// Grant: document 01's steps 1 to 9 in their order, each where those before it found nothing. Steps 4 and 9 stand here, the others in crates of their own.
#![tactic(auto)]

mod step_4; // step_4.rt
mod step_9; // step_9.rt: the top

ghost use Rattle.std.specs.Prelude.{◌≡◌, length, Option, ℕ};
ghost use Rattle.le.specs.Arena.{arena_words};
ghost use Rattle.le.specs.Number.{bytes};
ghost use Rattle.machine.specs.Grant.{pass, again, from4, seek, grant};
ghost use Rattle.machine.specs.Calls.{words_of};
ghost use Rattle.sound.specs.Relation.{Good};
ghost use Rattle.primitives.specs.Follow.{Has, Does};

use consolidate::{any_fast, consolidate};
use record_words::Changed;
use sizes::Size;

// Steps 5 to 9 once.
// Kept: no `or_else` with a closure for each step, here and below: tried, and what a closure left of arena and record is not known behind it (c).
fn pass(a: &mut [u8], r: &mut [u32], b: Size) -> Option<u32>
    requires { Has Good (arena_words a.old) r.old }
    ensures { Does (Option ℕ) Good (pass b.bytes) (arena_words a.old) r.old result (arena_words a.new) r.new }
{
    let g5 = grant_step_5::step5(a, r, b);
    if let Some(c) = g5 {
        return Some(c);
    }
    let g6 = grant_steps_6_7::step6(a, r, b);
    if let Some(c) = g6 {
        return Some(c);
    }
    let g7 = grant_steps_6_7::step7(a, r, b);
    if let Some(c) = g7 {
        return Some(c);
    }
    step_9::step9(a, r, b)
}

// A short top, and fast chunks: consolidate and go to 5.
fn again(a: &mut [u8], r: &mut [u32], b: Size) -> Option<u32>
    requires { Has Good (arena_words a.old) r.old }
    ensures { Does (Option ℕ) Good (again b.bytes) (arena_words a.old) r.old result (arena_words a.new) r.new }
{
    if any_fast(r) {
        consolidate(a, r);
        return pass(a, r, b);
    }
    None
}

// Steps 4 to 9.
fn from4(a: &mut [u8], r: &mut [u32], b: Size) -> Option<u32>
    requires { Has Good (arena_words a.old) r.old }
    ensures { Does (Option ℕ) Good (from4 b.bytes) (arena_words a.old) r.old result (arena_words a.new) r.new }
{
    step_4::step4(a, r, b);
    let g = pass(a, r, b);
    if let Some(c) = g {
        return Some(c);
    }
    again(a, r, b)
}

// Steps 2 to 9.
pub fn seek(a: &mut [u8], r: &mut [u32], b: Size) -> Option<u32>
    requires { Has Good (arena_words a.old) r.old }
    ensures { Does (Option ℕ) Good (seek b.bytes) (arena_words a.old) r.old result (arena_words a.new) r.new }
{
    let g2 = grant_steps_1_3::step2(a, r, b);
    if let Some(c) = g2 {
        return Some(c);
    }
    let g3 = grant_steps_1_3::step3(a, r, b);
    if let Some(c) = g3 {
        return Some(c);
    }
    from4(a, r, b)
}

// Steps 1 to 9, and the record's bytes: a chunk from the cache changes two words of them, the other ways any.
pub fn grant(a: &mut [u8], control: &mut [u8], r: &mut [u32], b: Size) -> Option<u32>
    requires { Has Good (arena_words a.old) r.old × (length control.old ≡ 1584) × (r.old ≡ words_of control.old) }
    ensures { Does (Option ℕ) Good (grant b.bytes) (arena_words a.old) r.old result (arena_words a.new) r.new × (control.new ≡ bytes 4 r.new) }
{
    let g1 = grant_steps_1_3::step1(a, r, b);
    if let Some(c) = g1 {
        record_words::write_changed(control, r, Changed::CacheList(sizes::cache_list(b.bytes)));
        return Some(c);
    }
    let g = seek(a, r, b);
    record_words::write_changed(control, r, Changed::Any);
    g
}
