// Histories of calls and holders' writes, and what every one of them comes to: proofs/Theorem.antt has demand 3. The code performs a history's calls by the
// exported calls, and answers C's three numbers.
// Assumes nothing.
#![tactic(auto)]

ghost use Rattle.std.specs.Prelude.{◌≡◌};
ghost use Rattle.heap.specs.Exported.{back, numbered};
ghost use Rattle.history.specs.Performed.{call_of};

use machine::HeapAnswer;

// A call of a history, with its numbers.
#[derive(Clone, Copy)]
pub enum Call {
    Grant(u64),
    Release(u64),
    Resize(u64, u64),
    Emptying,
    Joining,
}

pub fn perform(arena: &mut [u8], control: &mut [u8], c: Call) -> HeapAnswer
    ensures { back arena.new control.new result ≡ numbered (call_of c arena.old control.old) }
{
    match c {
        Call::Grant(n) => {
            return heap::heap_grant(arena, control, n);
        }
        Call::Release(m) => {
            return heap::heap_release(arena, control, m);
        }
        Call::Resize(m, n) => {
            return heap::heap_resize(arena, control, m, n);
        }
        Call::Emptying => {
            return heap::heap_emptying(arena, control);
        }
        Call::Joining => {
            return heap::heap_joining(arena, control);
        }
    }
}
