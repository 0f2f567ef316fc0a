// The whole picture: what heapimage's first two lines say, the rows, the place of the fault, the figures; and last, as a definition that the rows use, the strip.
ghost use Rattle.std.specs.Prelude.{◌≡◌, ◌≤◌, true, length, take, Ok};
ghost use Rattle.le.specs.Arena.{arena_words};
ghost use Rattle.machine.specs.Audit.{audit_by, Audited};
ghost use Rattle.audit_walks.specs.Marks.{ArenaBytes};
ghost use Rattle.image.specs.Image.{version_in, after_reading};
ghost use Rattle.audit_reached.specs.Reached.{tiled?};
ghost use Rattle.text.specs.Pages.{Room, Grows};
ghost use Rattle.image_text.specs.ImageText.{AuditedBy};
ghost use Rattle.image_svg.specs.Picture.{HasRects, Shows, Pictured, PictureOf};

use crate::figures::figures_of;
use crate::legend::put_legend;
use crate::rows::{ABOVE, PITCH, Rows, put_arrow, put_rows, rows_of};
use image::Unread;
use image_text::{Form, length_in, put_audit, put_head, put_list, put_reached, tiled};
use machine::Fault;
use text::Page;

fn put_style(page: &mut Page, h: u64)
    requires { Room 500 page.old }
    ensures { Grows 500 page.old page.new }
{
    page.bytes(b"<svg xmlns=\"http://www.w3.org/2000/svg\" width=\"1140\" height=\"");
    page.decimal(h, 20);
    page.bytes(
        b"\">\n<style>\ntext{font:14px sans-serif;fill:#222}.o{font:11px monospace;text-anchor:end}.h{font-size:18px}\n",
    );
    page.bytes(
        b".live{fill:#5d6b82}.cache{fill:#f3d35c}.fast{fill:#f39a4a}.bin{fill:#2f9e77}.top{fill:#a9e0c8}.bad{fill:#d0021b}\n",
    );
    page.bytes(b"#tiles rect{stroke:#fff;stroke-width:1;vector-effect:non-scaling-stroke}\n")
}

// Of a list that is bad, what is reached of it has a red outline.
fn put_outline(page: &mut Page, x: Result<(), Fault>)
    requires { Room 100 page.old }
    ensures { Grows 100 page.old page.new }
{
    let Err(Fault::List(k)) = x else {
        return;
    };
    page.bytes(b"#tiles rect[class=\"");
    put_list(page, k);
    page.bytes(b"\"]{stroke:#d0021b;stroke-width:3}\n")
}

// The place of a fault that has one.
fn put_fault(page: &mut Page, x: Result<(), Fault>, n: usize)
    requires { Room 80 page.old }
    ensures { Grows 80 page.old page.new }
{
    match x {
        Err(Fault::Tile(o) | Fault::Flag(o)) => put_arrow(page, o, n),
        _ => {}
    }
}

// The beginning of the audit's line, red for a fault.
fn put_line(page: &mut Page, x: Result<(), Fault>)
    requires { Room 60 page.old }
    ensures { Grows 60 page.old page.new }
{
    if x.is_ok() {
        page.bytes(b"<text class=\"h\" x=\"88\" y=\"48\">");
        return;
    }
    page.bytes(b"<text class=\"h bad\" x=\"88\" y=\"48\">");
}

// What it means for the logger.
fn put_meaning(page: &mut Page, x: Result<(), Fault>)
    requires { Room 70 page.old }
    ensures { Grows 70 page.old page.new }
{
    if x.is_ok() {
        page.bytes(b"</text>\n");
        return;
    }
    page.bytes(b"(unsound: grants, releases and resizes are refused)</text>\n");
}

// heapimage's first two lines.
fn put_title(page: &mut Page, v: u16, n: usize, x: Result<(), Fault>)
    requires { Room 360 page.old }
    ensures { Grows 360 page.old page.new }
{
    page.bytes(
        b"</style>\n<rect width=\"100%\" height=\"100%\" fill=\"#fff\"/>\n<text class=\"h\" x=\"88\" y=\"26\">",
    );
    put_head(page, v, n);
    page.bytes(b"</text>\n");
    put_line(page, x);
    put_audit(page, x);
    put_meaning(page, x);
}

// All but figures and strip: 22,000 bytes hold it.
fn put_frame(page: &mut Page, v: u16, n: usize, rows: Rows, x: Result<(), Fault>)
    requires count_bound { rows.count ≤ 64 }
    requires bytes_bound { rows.bytes ≤ 4096 }
    requires in_bounds { Room 22000 page.old }
    ensures { Grows 22000 page.old page.new }
{
    put_style(page, below(rows) + 130);
    put_outline(page, x);
    put_title(page, v, n, x);
    put_rows(page, rows);
    put_fault(page, x, n);
}

// The height below the rows.
fn below(rows: Rows) -> u64
    requires { rows.count ≤ 64 }
    ensures { result ≤ 1300 }
{
    ABOVE + PITCH * rows.count as u64 + 10
}

// The strip of a heap whose record or tiles are at fault: one grey stretch.
fn put_untiled(page: &mut Page, n: usize)
    requires { Room 120 page.old }
    ensures { Grows 120 page.old page.new }
{
    page.bytes(b"<defs><g id=\"tiles\"><rect fill=\"#ddd\" width=\"");
    page.decimal(n as u64, 20);
    page.bytes(b"\" height=\"1\"/></g></defs></svg>\n");
}

// The figures, and the strip.
fn put_tiled(page: &mut Page, v: u16, a: &[u8], r: &[u32], y: u64)
    requires arena_bytes { ArenaBytes a.now × (length r.now ≡ 396) × (tiled? (audit_by v (arena_words a.now) r.now) ≡ true) }
    requires y_bound { y ≤ 1300 }
    requires room { Room 1649168 page.old }
    ensures grows { Grows 1649168 page.old page.new }
    ensures has_rects { HasRects v a.now r.now (take page.new.at page.new.out.now) }
{
    let f = figures_of(v, a, r);
    put_legend(page, f, y);
    page.bytes(b"<defs><g id=\"tiles\">\n");
    put_reached(page, Form::Rects, v, a, r);
    page.bytes(b"</g></defs></svg>\n");
}

// The heap in arena and record, read from a file of version v, of which the audit says x.
fn put_picture(page: &mut Page, v: u16, arena: &[u8], control: &[u8], x: Result<(), Fault>)
    requires audited_by { AuditedBy v arena.now control.now x }
    requires arena_len_bound { length arena.now ≤ 262144 }
    requires room { Room 1671168 page.old }
    ensures grows { Grows 1671168 page.old page.new }
    ensures shows { tiled? x ≡ true → Shows v arena.now control.now (take page.new.at page.new.out.now) }
{
    let n = arena.len();
    let rows = rows_of(n);
    put_frame(page, v, n, rows, x);
    if !tiled(x) {
        put_untiled(page, n);
        return;
    }
    let mut r = [0u32; 396];
    record_words::read_words(control, &mut r);
    put_tiled(page, v, arena, &r, below(rows));
}

// What was read of the file into arena and record: the picture of the heap in them, or the line of the refusal's number.
fn put_reading(
    page: &mut Page,
    file: &[u8],
    arena: &[u8],
    control: &[u8],
    x: Result<Result<(), Fault>, Unread>,
)
    requires in_bounds { (y : Audited) → x ≡ Ok y → (5 ≤ length file.now) × AuditedBy (version_in file.now) arena.now control.now y }
    requires arena_len_bound { length arena.now ≤ 262144 }
    requires first { page.old.at ≡ 0 }
    requires room { Room 1671168 page.old }
    ensures grows { Grows 1671168 page.old page.new }
    ensures pictured { Pictured (version_in file.now) (after_reading arena.now control.now x) (take page.new.at page.new.out.now) }
{
    match x {
        Ok(y) => put_picture(page, image::version_in(file), arena, control, y),
        Err(unread) => page.question(u64::from(unread.no())),
    }
}

// The picture of a file. Arena and record are lent to read it into.
pub fn put_svg(out: &mut [u8], file: &[u8], arena: &mut [u8], control: &mut [u8]) -> usize
    requires arena_len { length arena.old ≡ 262144 }
    requires control_len { length control.old ≡ 1584 }
    requires out_len { length out.old ≡ 1671168 }
    ensures upper_bound { result ≤ 1671168 }
    ensures picture_of { PictureOf file.now (take result out.new) }
{
    let n = length_in(file);
    let lent = &mut arena[..n];
    let x = image::read_image(file, lent, control);
    let mut page = Page { out, at: 0 };
    put_reading(&mut page, file, lent, control, x);
    page.at
}
