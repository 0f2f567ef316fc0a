// Grant: numbers 1, 2, 3 before the first write; then the steps; number 5 leaves what they did.
ghost use Rattle.std.specs.Prelude.{◌≡◌, Ok};
ghost use Rattle.le.specs.Arena.{arena_words};
ghost use Rattle.sizes.specs.Sizes.{usable};
ghost use Rattle.sizes.specs.Offsets.{mem_of};
ghost use Rattle.machine.specs.View.{size_at};
ghost use Rattle.machine.specs.Calls.{after, grant_call};
ghost use Rattle.calls.specs.Grants.{Stands};

use crate::shape::shaped;
use machine::{Answer, Refusal};
use sizes::Chunk;

// The answer where the chunk c was found: its mem, and its usable bytes as its size word has them after the steps.
pub fn granted_at(a: &[u8], c: Chunk) -> Answer
    requires { Stands a.now c.0 }
    ensures { result ≡ Answer.Granted (mem_of c.0) (usable (size_at (arena_words a.now) c.0)) }
{
    let m = c.mem();
    let u = sizes::usable(chunk_fields::size_at(a, c));
    Answer::Granted {
        mem: m.0 as u32,
        usable: u as u32,
    }
}

pub fn grant(arena: &mut [u8], control: &mut [u8], n: u64) -> Result<Answer, Refusal>
    ensures { after arena.new control.new result ≡ grant_call arena.old control.old n }
{
    if !shaped(arena, control) {
        return Err(Refusal::Shape);
    }
    let Some(b) = sizes::need(n) else {
        return Err(Refusal::Request);
    };
    let mut r = [0u32; 396];
    record_words::read_words(control, &mut r);
    audit::audit_words(arena, &r)?;
    let Some(c) = grant::grant(arena, control, &mut r, b) else {
        return Err(Refusal::NoRoom);
    };
    Ok(granted_at(arena, Chunk(c as u64)))
}
