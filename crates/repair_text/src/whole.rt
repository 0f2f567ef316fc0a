// A heap that was read and mended, and a file.
ghost use Rattle.std.specs.Prelude.{◌≡◌, true, ◌≤◌, length, take};
ghost use Rattle.machine.specs.Calls.{shape?};
ghost use Rattle.text.specs.Text.{question_text};
ghost use Rattle.image.specs.Image.{image};
ghost use Rattle.repair.specs.RepairCall.{after_repair};
ghost use Rattle.repair_text.specs.Changes.{all_changes};
ghost use Rattle.repair_text.specs.RepairText.{mends_to, lines_of, image_of, mend_text, mended_image};

use crate::Mend;
use crate::changes::{put_arena_changes, put_record_changes};
use image::ARENA_AT;
use repair::Unmended;
use text::Page;

// The line of a refusal's number; there is no image then.
fn refuse(out: &mut [u8], no: u64) -> Mend
    requires { length out.old ≡ 2155660 }
    ensures lines_bound { result.lines ≤ 2155660 }
    ensures image_value { result.image ≡ 0 }
    ensures out_after { take result.lines out.new ≡ question_text no }
{
    let mut page = Page { out, at: 0 };
    page.question(no);
    Mend {
        lines: page.at,
        image: 0,
    }
}

// The lines of what changed between two heaps of one length, from arena0 and control0 to arena and control.
fn put_changes(
    out: &mut [u8],
    arena0: &[u8],
    control0: &[u8],
    arena: &[u8],
    control: &[u8],
) -> usize
    requires control0_value { (shape? arena0.now control0.now ≡ true) × (shape? arena.now control.now ≡ true) × (length arena0.now ≡ length arena.now) }
    requires out_len { length out.old ≡ 2155660 }
    ensures upper_bound { result ≤ 2155660 }
    ensures out_after { take result out.new ≡ all_changes arena0.now control0.now arena.now control.now }
{
    let mut page = Page { out, at: 0 };
    put_record_changes(&mut page, control0, control);
    put_arena_changes(&mut page, arena0, arena);
    page.at
}

// The image of a heap, in the first bytes of those lent.
fn put_image(mended: &mut [u8], arena: &[u8], control: &[u8]) -> usize
    requires control_value { shape? arena.now control.now ≡ true }
    requires mended_len { length mended.old ≡ 263737 }
    ensures upper_bound { result ≤ 263737 }
    ensures mended_after { take result mended.new ≡ image arena.now control.now }
{
    let n = ARENA_AT + arena.len();
    let _ = image::write_image(arena, control, &mut mended[..n]);
    n
}

// What was read, arena0 and control0, and what a repair that answers x left of it.
fn put_repaired(
    out: &mut [u8],
    mended: &mut [u8],
    arena0: &[u8],
    control0: &[u8],
    arena: &[u8],
    control: &[u8],
    x: Result<(), Unmended>,
) -> Mend
    requires control0_value { (shape? arena0.now control0.now ≡ true) × (shape? arena.now control.now ≡ true) × (length arena0.now ≡ length arena.now) }
    requires out_len { length out.old ≡ 2155660 }
    requires mended_len { length mended.old ≡ 263737 }
    ensures lines_bound { (result.lines ≤ 2155660) × (result.image ≤ 263737) }
    ensures out_after { take result.lines out.new ≡ lines_of (mends_to arena0.now control0.now (after_repair arena.now control.now x)) }
    ensures mended_after { take result.image mended.new ≡ image_of (mends_to arena0.now control0.now (after_repair arena.now control.now x)) }
{
    match x {
        Ok(()) => {
            let n = put_changes(out, arena0, control0, arena, control);
            let m = put_image(mended, arena, control);
            Mend { lines: n, image: m }
        }
        Err(unmended) => refuse(out, u64::from(unmended.no())),
    }
}

// The lines of a file and the image of its mended heap. It is read twice: as it was into the first two buffers lent, and to be mended into the other two.
pub fn mend_file(
    out: &mut [u8],
    mended: &mut [u8],
    file: &[u8],
    arena0: &mut [u8],
    control0: &mut [u8],
    arena: &mut [u8],
    control: &mut [u8],
) -> Mend
    requires arena0_len { (length arena0.old ≡ 262144) × (length control0.old ≡ 1584) × (length arena.old ≡ 262144) × (length control.old ≡ 1584) }
    requires out_len { length out.old ≡ 2155660 }
    requires mended_len { length mended.old ≡ 263737 }
    ensures lines_bound { (result.lines ≤ 2155660) × (result.image ≤ 263737) }
    ensures out_after { take result.lines out.new ≡ mend_text file.now }
    ensures mended_after { take result.image mended.new ≡ mended_image file.now }
{
    let n = image::length_in(file);
    let before = &mut arena0[..n];
    let x = image::read_image(file, before, control0);
    match x {
        Ok(_) => {
            let after = &mut arena[..n];
            let _ = image::read_image(file, after, control);
            let y = repair::repair_by(after, control, image::version_in(file) as u32);
            put_repaired(out, mended, before, control0, after, control, y)
        }
        Err(unread) => refuse(out, u64::from(unread.no())),
    }
}
