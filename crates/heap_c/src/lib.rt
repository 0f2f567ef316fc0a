// The calls as C links them: the archive of include/heap.h. Each is heap's call of the same name, with heap's contract.
// Kept: each stands here once more, since the exported names of a static library stand in its own crate (the C interface).
#![tactic(auto)]

ghost use Rattle.std.specs.Prelude.{◌≡◌};
ghost use Rattle.machine.specs.Calls.{fault_numbers, open_call, grant_call, release_call, resize_call, emptying_call, joining_call, audit_call};
ghost use Rattle.image.specs.Image.{write_call, read_call};
ghost use Rattle.repair.specs.RepairCall.{repair_call};
ghost use Rattle.heap.specs.Exported.{back, numbered, written_back, numbered_written, read_back, numbered_read, numbered_repair};

use machine::{HeapAnswer, HeapFault};

#[unsafe(no_mangle)]
pub extern "C" fn heap_open(
    arena: &mut [u8],
    control: &mut [u8],
    key: u64,
    edition: u32,
) -> HeapAnswer
    ensures { back arena.new control.new result ≡ numbered (open_call arena.old control.old key edition) }
{
    heap::heap_open(arena, control, key, edition)
}

#[unsafe(no_mangle)]
pub extern "C" fn heap_grant(arena: &mut [u8], control: &mut [u8], n: u64) -> HeapAnswer
    ensures { back arena.new control.new result ≡ numbered (grant_call arena.old control.old n) }
{
    heap::heap_grant(arena, control, n)
}

#[unsafe(no_mangle)]
pub extern "C" fn heap_release(arena: &mut [u8], control: &mut [u8], mem: u64) -> HeapAnswer
    ensures { back arena.new control.new result ≡ numbered (release_call arena.old control.old mem) }
{
    heap::heap_release(arena, control, mem)
}

#[unsafe(no_mangle)]
pub extern "C" fn heap_resize(arena: &mut [u8], control: &mut [u8], mem: u64, n: u64) -> HeapAnswer
    ensures { back arena.new control.new result ≡ numbered (resize_call arena.old control.old mem n) }
{
    heap::heap_resize(arena, control, mem, n)
}

#[unsafe(no_mangle)]
pub extern "C" fn heap_emptying(arena: &mut [u8], control: &mut [u8]) -> HeapAnswer
    ensures { back arena.new control.new result ≡ numbered (emptying_call arena.old control.old) }
{
    heap::heap_emptying(arena, control)
}

#[unsafe(no_mangle)]
pub extern "C" fn heap_joining(arena: &mut [u8], control: &mut [u8]) -> HeapAnswer
    ensures { back arena.new control.new result ≡ numbered (joining_call arena.old control.old) }
{
    heap::heap_joining(arena, control)
}

#[unsafe(no_mangle)]
pub extern "C" fn heap_audit(arena: &[u8], control: &[u8]) -> HeapFault
    ensures { result ≡ fault_numbers (audit_call arena.now control.now) }
{
    heap::heap_audit(arena, control)
}

#[unsafe(no_mangle)]
pub extern "C" fn heap_repair(arena: &mut [u8], control: &mut [u8]) -> HeapAnswer
    ensures { back arena.new control.new result ≡ numbered_repair (repair_call arena.old control.old) }
{
    heap::heap_repair(arena, control)
}

#[unsafe(no_mangle)]
pub extern "C" fn heap_write_image(arena: &[u8], control: &[u8], file: &mut [u8]) -> HeapAnswer
    ensures { written_back file.new result ≡ numbered_written (write_call arena.now control.now file.old) }
{
    heap::heap_write_image(arena, control, file)
}

#[unsafe(no_mangle)]
pub extern "C" fn heap_read_image(file: &[u8], arena: &mut [u8], control: &mut [u8]) -> HeapFault
    ensures { read_back arena.new control.new result ≡ numbered_read (read_call file.now arena.old control.old) }
{
    heap::heap_read_image(file, arena, control)
}
