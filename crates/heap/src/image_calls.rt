// A heap in a file, as C sees it: the same bytes as those of the crate image, with document 02's numbers for its answers.
ghost use Rattle.std.specs.Prelude.{◌≡◌};
ghost use Rattle.image.specs.Image.{write_call, read_call, reading_numbers};
ghost use Rattle.heap.specs.Exported.{written_back, numbered_written, read_back, numbered_read};

use crate::fault_numbers;
use image::Unread;
use machine::{Fault, HeapAnswer, HeapFault, answer_numbers};

fn reading_numbers(x: Result<Result<(), Fault>, Unread>) -> HeapFault
    ensures { result ≡ reading_numbers x }
{
    match x {
        Ok(audited) => fault_numbers(audited),
        Err(unread) => HeapFault {
            no: unread.no(),
            kind: 0,
            number: 0,
        },
    }
}

#[unsafe(no_mangle)]
pub extern "C" fn heap_write_image(arena: &[u8], control: &[u8], file: &mut [u8]) -> HeapAnswer
    ensures { written_back file.new result ≡ numbered_written (write_call arena.now control.now file.old) }
{
    let x = image::write_image(arena, control, file);
    answer_numbers(x)
}

#[unsafe(no_mangle)]
pub extern "C" fn heap_read_image(file: &[u8], arena: &mut [u8], control: &mut [u8]) -> HeapFault
    ensures { read_back arena.new control.new result ≡ numbered_read (read_call file.now arena.old control.old) }
{
    let x = image::read_image(file, arena, control);
    reading_numbers(x)
}
