// Writing: number 1 before the first byte; then the mark, the version, the arena's length, the record and the arena. An unsound heap is written like any other.
ghost use Rattle.std.specs.Prelude.{◌≡◌};
ghost use Rattle.image.specs.Image.{written, write_call};

use crate::{ARENA_AT, VERSION};
use machine::{Answer, Refusal};
use text::Page;

pub fn write_image(arena: &[u8], control: &[u8], file: &mut [u8]) -> Result<Answer, Refusal>
    ensures { written file.new result ≡ write_call arena.now control.now file.old }
{
    if !calls::shaped(arena, control) {
        return Err(Refusal::Shape);
    }
    if file.len() != ARENA_AT + arena.len() {
        return Err(Refusal::Shape);
    }
    let v = VERSION.to_le_bytes();
    let n = (arena.len() as u32).to_le_bytes();
    let mut page = Page { out: file, at: 0 };
    page.bytes(b"HPI");
    page.bytes(&v);
    page.bytes(&n);
    page.bytes(control);
    page.bytes(arena);
    Ok(Answer::Done)
}
