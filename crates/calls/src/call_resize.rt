// Resize: null is a grant; else a new length of 0 is a release; else numbers 1, 2, 3, 4 before the first write, then the steps; number 5 leaves what they did.
ghost use Rattle.std.specs.Prelude.{◌≡◌, false, eqb};
ghost use Rattle.machine.specs.Calls.{after, resize_call};

use crate::call_grant::{grant, granted_at};
use crate::call_release::release;
use crate::shape::shaped;
use machine::{Answer, Refusal};
use sizes::{Chunk, Mem};

// A block gets another length, which is not 0.
fn resize_block(arena: &mut [u8], control: &mut [u8], mem: u64, n: u64) -> Result<Answer, Refusal>
    requires { (eqb mem 0 ≡ false) × (eqb n 0 ≡ false) }
    ensures { after arena.new control.new result ≡ resize_call arena.old control.old mem n }
{
    if !shaped(arena, control) {
        return Err(Refusal::Shape);
    }
    let Some(b) = sizes::need(n) else {
        return Err(Refusal::Request);
    };
    let mut r = [0u32; 396];
    record_words::read_words(control, &mut r);
    let m = Mem(mem);
    let live = audit::look_at(arena, &r, m)?;
    if !live {
        return Err(Refusal::NotLive);
    }
    let g = resize::resize(arena, &mut r, m.chunk(), b);
    record_words::write_words(control, &r);
    let Some(c) = g else {
        return Err(Refusal::NoRoom);
    };
    Ok(granted_at(arena, Chunk(c as u64)))
}

pub fn resize(arena: &mut [u8], control: &mut [u8], mem: u64, n: u64) -> Result<Answer, Refusal>
    ensures { after arena.new control.new result ≡ resize_call arena.old control.old mem n }
{
    if mem == 0 {
        return grant(arena, control, n);
    }
    if n == 0 {
        return release(arena, control, mem);
    }
    resize_block(arena, control, mem, n)
}
