// Joining: numbers 1 and 3 before the first write; then consolidate, and no last remainder.
ghost use Rattle.std.specs.Prelude.{◌≡◌};
ghost use Rattle.machine.specs.Calls.{after, joining_call};

use crate::shape::shaped;
use machine::{Answer, Refusal};

// Kept: a file for each call is a rule of the project, and what the two jobs share is four lines (d).
pub fn joining(arena: &mut [u8], control: &mut [u8]) -> Result<Answer, Refusal>
    ensures { after arena.new control.new result ≡ joining_call arena.old control.old }
{
    if !shaped(arena, control) {
        return Err(Refusal::Shape);
    }
    let mut r = [0u32; 396];
    record_words::read_words(control, &mut r);
    audit::audit_words(arena, &r)?;
    joining::joining(arena, &mut r);
    record_words::write_words(control, &r);
    Ok(Answer::Done)
}
