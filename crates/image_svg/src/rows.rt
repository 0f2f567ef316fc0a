// The rows that show the strip, and the place of a fault. A row is 1,024 wide; it shows 256 bytes of a small arena, else 1,024 or 4,096, so that there are at
// most 16 rows, or 64 of the largest arena.
ghost use Rattle.std.specs.Prelude.{◌≡◌, ◌⊎◌, ◌+◌, ◌*◌, ◌≤◌};
ghost use Rattle.text.specs.Pages.{Room, Grows};

use text::Page;

// Where the rows begin, and how far apart they are.
const LEFT: u64 = 88;

pub const ABOVE: u64 = 64;

pub const PITCH: u64 = 18;

// How many bytes a row shows, and how many rows there are.
#[derive(Clone, Copy)]
pub struct Rows {
    pub bytes: usize,
    pub count: usize,
}

// How many bytes of an arena of n a row shows.
fn row_bytes(n: usize) -> usize
    ensures bytes { (result ≡ 256) ⊎ (result ≡ 1024) ⊎ (result ≡ 4096) }
    ensures at_most { n ≤ 262144 → n ≤ 64 * result }
{
    match n {
        0..=4096 => 256,
        4097..=16384 => 1024,
        _ => 4096,
    }
}

pub fn rows_of(n: usize) -> Rows
    requires { n ≤ 262144 }
    ensures count_bound { result.count ≤ 64 }
    ensures bytes_bound { result.bytes ≤ 4096 }
{
    let bytes = row_bytes(n);
    Rows {
        bytes,
        count: n.div_ceil(bytes),
    }
}

// The row that shows w bytes from o on, its upper edge at y: the offset beside it, and the strip through a window.
fn put_row(page: &mut Page, o: usize, w: usize, y: u64)
    requires at_in_bounds { Room 320 page.old }
    requires y_bound { y ≤ 2000 }
    ensures { Grows 320 page.old page.new }
{
    page.bytes(b"<text class=\"o\" x=\"80\" y=\"");
    page.decimal(y + 11, 20);
    page.bytes(b"\">");
    page.decimal(o as u64, 20);
    page.bytes(b"</text><svg x=\"88\" y=\"");
    page.decimal(y, 20);
    put_window(page, o, w);
}

// The window itself.
fn put_window(page: &mut Page, o: usize, w: usize)
    requires { Room 200 page.old }
    ensures { Grows 200 page.old page.new }
{
    page.bytes(b"\" width=\"1024\" height=\"14\" preserveAspectRatio=\"none\" viewBox=\"");
    page.decimal(o as u64, 20);
    page.bytes(b" 0 ");
    page.decimal(w as u64, 20);
    page.bytes(b" 1\"><use href=\"#tiles\"/></svg>\n");
}

pub fn put_rows(page: &mut Page, rows: Rows)
    requires count_bound { rows.count ≤ 64 }
    requires bytes_bound { rows.bytes ≤ 4096 }
    requires from_in_bounds { Room 20480 page.old }
    ensures { Grows 20480 page.old page.new }
{
    for i in 0..rows.count {
        put_row(page, rows.bytes * i, rows.bytes, ABOVE + PITCH * i as u64);
    }
}

// Where an offset stands in the rows of an arena of n bytes: how far to the right, and in which row.
#[derive(Clone, Copy)]
struct Place {
    x: u64,
    row: u64,
}

fn place_of(n: usize, o: u32) -> Place
    ensures x_bound { result.x ≤ 1024 }
    ensures row_bound { result.row ≤ 16777216 }
{
    let bytes = row_bytes(n) as u64;
    let at = u64::from(o);
    Place {
        x: at % bytes * 1024 / bytes,
        row: at / bytes,
    }
}

// An arrow from above to the place of offset o, in an arena of n bytes.
pub fn put_arrow(page: &mut Page, o: u32, n: usize)
    requires { Room 80 page.old }
    ensures { Grows 80 page.old page.new }
{
    let p = place_of(n, o);
    page.bytes(b"<path class=\"bad\" d=\"M");
    page.decimal(LEFT + p.x, 20);
    page.bytes(b" ");
    page.decimal(ABOVE + PITCH * p.row + 1, 20);
    page.bytes(b"l-6-9h12z\"/>\n");
}
