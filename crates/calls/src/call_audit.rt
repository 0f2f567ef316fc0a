// Audit: number 1 for a bad shape, else what the heap's audit says.
ghost use Rattle.std.specs.Prelude.{◌≡◌};
ghost use Rattle.machine.specs.Calls.{audit_call};

use crate::shape::shaped;
use machine::Fault;

pub fn audit(arena: &[u8], control: &[u8]) -> Result<(), Fault>
    ensures { result ≡ audit_call arena.now control.now }
{
    if !shaped(arena, control) {
        return Err(Fault::Shape);
    }
    let mut r = [0u32; 396];
    record_words::read_words(control, &mut r);
    audit::audit_words(arena, &r)
}
