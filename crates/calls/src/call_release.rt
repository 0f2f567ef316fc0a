// Release: numbers 1, 3, 4 before the first write; null does nothing and succeeds.
ghost use Rattle.std.specs.Prelude.{◌≡◌};
ghost use Rattle.machine.specs.Calls.{after, release_call};

use crate::shape::shaped;
use machine::{Answer, Refusal};
use sizes::Mem;

pub fn release(arena: &mut [u8], control: &mut [u8], mem: u64) -> Result<Answer, Refusal>
    ensures { after arena.new control.new result ≡ release_call arena.old control.old mem }
{
    if !shaped(arena, control) {
        return Err(Refusal::Shape);
    }
    let mut r = [0u32; 396];
    record_words::read_words(control, &mut r);
    let m = Mem(mem);
    let live = audit::look_at(arena, &r, m)?;
    if mem == 0 {
        return Ok(Answer::Done);
    }
    if !live {
        return Err(Refusal::NotLive);
    }
    let changed = release::release(arena, &mut r, m.chunk());
    record_words::write_changed(control, &r, changed);
    Ok(Answer::Done)
}
