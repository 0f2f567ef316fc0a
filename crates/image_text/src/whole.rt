// A heap that was read, and a file.
ghost use Rattle.std.specs.Prelude.{◌≡◌, true, ◌*◌, ◌/◌, ◌≤◌, length, take, Ok};
ghost use Rattle.le.specs.Arena.{arena_words};
ghost use Rattle.machine.specs.Audit.{audit_by, Audited};
ghost use Rattle.audit_walks.specs.Marks.{ArenaBytes};
ghost use Rattle.audit_reached.specs.Reached.{tiled?};
ghost use Rattle.image.specs.Image.{version_in, after_reading};
ghost use Rattle.text.specs.Pages.{Room, Adds};
ghost use Rattle.image_text.specs.ImageText.{head_text, edition_text, first_text, arena_text, AuditedBy, heap_text, read_text, image_text};

use crate::Form;
use crate::tiles::put_tiles;
use crate::words::put_audit;
use audit_reached::tiled;
use audit_walks::UNMARKED;
use image::{Unread, length_in};
use machine::Fault;
use sizes::{Chunk, EDITION, TOP_WORD};
use text::Page;

// Where the record has its edition.
const EDITION_AT: usize = 4 * EDITION;

// image VERSION LENGTH
pub fn put_head(page: &mut Page, v: u16, n: usize)
    requires { Room 48 page.old }
    ensures { Adds 48 page.old page.new (head_text v n) }
{
    page.bytes(b"image");
    page.field(v as u64);
    page.field(n as u64);
    page.byte(b'\n');
}

// edition D, as the record has it.
fn put_edition(page: &mut Page, control: &[u8])
    requires at_in_bounds { Room 48 page.old }
    requires control_len { length control.now ≡ 1584 }
    ensures { Adds 48 page.old page.new (edition_text control.now) }
{
    let d = le::read::<u32>(control, EDITION_AT);
    page.bytes(b"edition");
    page.field(d as u64);
    page.byte(b'\n');
}

// The first line, and where it is asked for the edition's behind it.
fn put_first(page: &mut Page, edition: bool, v: u16, n: usize, control: &[u8])
    requires in_bounds { Room 96 page.old }
    requires control_len { length control.now ≡ 1584 }
    ensures { Adds 96 page.old page.new (first_text edition v n control.now) }
{
    put_head(page, v, n);
    if edition {
        put_edition(page, control);
    }
}

// The tiles of a heap whose audit by version v of the rules has tiles to show, in a form.
pub fn put_reached(page: &mut Page, form: Form, v: u16, a: &[u8], r: &[u32])
    requires arena_bytes { ArenaBytes a.now × (length r.now ≡ 396) × (tiled? (audit_by v (arena_words a.now) r.now) ≡ true) }
    requires a_in_bounds { Room (201 * (length a.now / 32)) page.old }
    ensures { Adds (201 * (length a.now / 32)) page.old page.new (arena_text form v a.now r.now) }
{
    let top = r[TOP_WORD] as usize;
    let mut m = [UNMARKED; 16384];
    let _ = audit_walks::tile_fault(a, Chunk(top as u64), &mut m);
    audit_reached::reach(a, r, &mut m, v as u32);
    put_tiles(page, form, a, top, &m);
}

// The heap in arena and record, read from a file of version v, of which the audit says x.
fn put_heap(
    page: &mut Page,
    edition: bool,
    v: u16,
    arena: &[u8],
    control: &[u8],
    x: Result<(), Fault>,
)
    requires audited_by { AuditedBy v arena.now control.now x }
    requires room { Room 1671168 page.old }
    ensures { Adds 1671168 page.old page.new (heap_text edition v arena.now control.now x) }
{
    put_first(page, edition, v, arena.len(), control);
    put_audit(page, x);
    if tiled(x) {
        let mut r = [0u32; 396];
        record_words::read_words(control, &mut r);
        put_reached(page, Form::Lines, v, arena, &r);
    }
}

// What was read of the file into arena and record: the heap in them, or the line of the refusal's number. A file that is refused may have no version.
fn put_reading(
    page: &mut Page,
    edition: bool,
    file: &[u8],
    arena: &[u8],
    control: &[u8],
    x: Result<Result<(), Fault>, Unread>,
)
    requires in_bounds { (y : Audited) → x ≡ Ok y → (5 ≤ length file.now) × AuditedBy (version_in file.now) arena.now control.now y }
    requires room { Room 1671168 page.old }
    ensures { Adds 1671168 page.old page.new (read_text edition (version_in file.now) (after_reading arena.now control.now x)) }
{
    match x {
        Ok(y) => put_heap(page, edition, image::version_in(file), arena, control, y),
        Err(unread) => page.question(u64::from(unread.no())),
    }
}

// The text of a file, with the edition or without. Arena and record are lent to read it into.
pub fn put_image(
    out: &mut [u8],
    edition: bool,
    file: &[u8],
    arena: &mut [u8],
    control: &mut [u8],
) -> usize
    requires arena_len { length arena.old ≡ 262144 }
    requires control_len { length control.old ≡ 1584 }
    requires out_len { length out.old ≡ 1671168 }
    ensures upper_bound { result ≤ 1671168 }
    ensures out_after { take result out.new ≡ image_text edition file.now }
{
    let n = length_in(file);
    let lent = &mut arena[..n];
    let x = image::read_image(file, lent, control);
    let mut page = Page { out, at: 0 };
    put_reading(&mut page, edition, file, lent, control, x);
    page.at
}
