// The calls as C sees them: arena bytes, control record bytes and a number or two, answered by three numbers. Each is the machine's call on the same bytes, with
// document 01's numbers for its answer; include/heap.h says the same in C's words.
#![tactic(auto)]

ghost use Rattle.std.specs.Prelude.{◌≡◌};
ghost use Rattle.machine.specs.Calls.{fault_numbers, list_numbers, open_call, grant_call, release_call, resize_call, emptying_call, joining_call, audit_call};
ghost use Rattle.heap.specs.Exported.{back, numbered};

mod image_calls; // image_calls.rt: a heap in a file
mod repair_call; // repair_call.rt: a heap mended

pub use image_calls::{heap_read_image, heap_write_image};
use machine::{Fault, HeapAnswer, HeapFault, ListKind, answer_numbers};
pub use repair_call::heap_repair;

fn list_numbers(k: ListKind) -> HeapFault
    ensures { result ≡ list_numbers k }
{
    match k {
        ListKind::Cache(i) => HeapFault {
            no: 0,
            kind: 3,
            number: i,
        },
        ListKind::Fast(i) => HeapFault {
            no: 0,
            kind: 4,
            number: i,
        },
        ListKind::Bin(j) => HeapFault {
            no: 0,
            kind: 5,
            number: j,
        },
    }
}

fn fault_numbers(x: Result<(), Fault>) -> HeapFault
    ensures { result ≡ fault_numbers x }
{
    match x {
        Ok(()) => HeapFault {
            no: 0,
            kind: 0,
            number: 0,
        },
        Err(Fault::Record) => HeapFault {
            no: 0,
            kind: 1,
            number: 0,
        },
        Err(Fault::Tile(o)) => HeapFault {
            no: 0,
            kind: 2,
            number: o,
        },
        Err(Fault::List(k)) => list_numbers(k),
        Err(Fault::Flag(o)) => HeapFault {
            no: 0,
            kind: 6,
            number: o,
        },
        Err(Fault::Shape) => HeapFault {
            no: 1,
            kind: 0,
            number: 0,
        },
    }
}

#[unsafe(no_mangle)]
pub extern "C" fn heap_open(
    arena: &mut [u8],
    control: &mut [u8],
    key: u64,
    edition: u32,
) -> HeapAnswer
    ensures { back arena.new control.new result ≡ numbered (open_call arena.old control.old key edition) }
{
    let x = calls::open(arena, control, key, edition);
    answer_numbers(x)
}

#[unsafe(no_mangle)]
pub extern "C" fn heap_grant(arena: &mut [u8], control: &mut [u8], n: u64) -> HeapAnswer
    ensures { back arena.new control.new result ≡ numbered (grant_call arena.old control.old n) }
{
    let x = calls::grant(arena, control, n);
    answer_numbers(x)
}

#[unsafe(no_mangle)]
pub extern "C" fn heap_release(arena: &mut [u8], control: &mut [u8], mem: u64) -> HeapAnswer
    ensures { back arena.new control.new result ≡ numbered (release_call arena.old control.old mem) }
{
    let x = calls::release(arena, control, mem);
    answer_numbers(x)
}

#[unsafe(no_mangle)]
pub extern "C" fn heap_resize(arena: &mut [u8], control: &mut [u8], mem: u64, n: u64) -> HeapAnswer
    ensures { back arena.new control.new result ≡ numbered (resize_call arena.old control.old mem n) }
{
    let x = calls::resize(arena, control, mem, n);
    answer_numbers(x)
}

#[unsafe(no_mangle)]
pub extern "C" fn heap_emptying(arena: &mut [u8], control: &mut [u8]) -> HeapAnswer
    ensures { back arena.new control.new result ≡ numbered (emptying_call arena.old control.old) }
{
    let x = calls::emptying(arena, control);
    answer_numbers(x)
}

#[unsafe(no_mangle)]
pub extern "C" fn heap_joining(arena: &mut [u8], control: &mut [u8]) -> HeapAnswer
    ensures { back arena.new control.new result ≡ numbered (joining_call arena.old control.old) }
{
    let x = calls::joining(arena, control);
    answer_numbers(x)
}

#[unsafe(no_mangle)]
pub extern "C" fn heap_audit(arena: &[u8], control: &[u8]) -> HeapFault
    ensures { result ≡ fault_numbers (audit_call arena.now control.now) }
{
    let x = calls::audit(arena, control);
    fault_numbers(x)
}
