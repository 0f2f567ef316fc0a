// The repair, as C sees it: the same bytes as those of the crate repair, with document 02's numbers for its answers.
ghost use Rattle.std.specs.Prelude.{◌≡◌};
ghost use Rattle.repair.specs.RepairCall.{repair_call, repair_numbers};
ghost use Rattle.heap.specs.Exported.{back, numbered_repair};

use machine::HeapAnswer;
use repair::Unmended;

fn repair_numbers(x: Result<(), Unmended>) -> HeapAnswer
    ensures { result ≡ repair_numbers x }
{
    let no = match x {
        Ok(()) => 0,
        Err(unmended) => unmended.no(),
    };
    HeapAnswer {
        no,
        mem: 0,
        usable: 0,
    }
}

#[unsafe(no_mangle)]
pub extern "C" fn heap_repair(arena: &mut [u8], control: &mut [u8]) -> HeapAnswer
    ensures { back arena.new control.new result ≡ numbered_repair (repair_call arena.old control.old) }
{
    let x = repair::repair(arena, control);
    repair_numbers(x)
}
