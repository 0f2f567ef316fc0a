// The figures in words, each beside its colour: where the room is, and what it is good for.
ghost use Rattle.std.specs.Prelude.{◌≤◌, length};
ghost use Rattle.text.specs.Pages.{Room, Grows};

use crate::figures::{Figures, Share};
use text::Page;

fn put_swatch(page: &mut Page, class: &[u8], y: u64)
    requires at_in_bounds { Room 100 page.old }
    requires class_len_bound { length class.now ≤ 5 }
    ensures { Grows 100 page.old page.new }
{
    page.bytes(b"<rect class=\"");
    page.bytes(class);
    page.bytes(b"\" x=\"88\" y=\"");
    page.decimal(y, 20);
    page.bytes(b"\" width=\"24\" height=\"14\"/>");
}

// A patch of a colour at height y, and the beginning of the text beside it.
fn put_patch(page: &mut Page, class: &[u8], y: u64)
    requires at_in_bounds { Room 180 page.old }
    requires class_len_bound { length class.now ≤ 5 }
    requires y_bound { y ≤ 2000 }
    ensures { Grows 180 page.old page.new }
{
    put_swatch(page, class, y);
    put_text(page, 120, y);
}

// The beginning of a text whose line has its upper edge at height y.
fn put_text(page: &mut Page, x: u64, y: u64)
    requires at_in_bounds { Room 80 page.old }
    requires y_bound { y ≤ 2000 }
    ensures { Grows 80 page.old page.new }
{
    page.bytes(b"<text x=\"");
    page.decimal(x, 20);
    page.bytes(b"\" y=\"");
    page.decimal(y + 12, 20);
    page.bytes(b"\">");
}

// N chunks, N bytes
fn put_share(page: &mut Page, x: Share)
    requires { Room 60 page.old }
    ensures { Grows 60 page.old page.new }
{
    page.decimal(x.chunks, 20);
    page.bytes(b" chunks, ");
    page.decimal(x.bytes, 20);
    page.bytes(b" bytes");
}

// What a request may ask for at most so that the largest binned chunk or the top has it: a chunk's usable bytes; a top keeps 32, and a chunk has 32 at least.
// 0 where neither has room for any.
fn largest_request(largest: u64, top: u64) -> u64 {
    let of_top = if 64 <= top { top - 40 } else { 0 };
    of_top.max(largest.saturating_sub(8))
}

// A line of the legend: a patch of its colour, its name, how many chunks and bytes, and what is said of them.
fn put_line(page: &mut Page, class: &[u8], name: &[u8], x: Share, says: &[u8], y: u64)
    requires at_in_bounds { Room 340 page.old }
    requires class_len_bound { length class.now ≤ 5 }
    requires name_len_bound { length name.now ≤ 8 }
    requires says_len_bound { length says.now ≤ 90 }
    requires y_bound { y ≤ 2000 }
    ensures { Grows 340 page.old page.new }
{
    put_patch(page, class, y);
    page.bytes(name);
    put_share(page, x);
    page.bytes(says);
}

// What is live, and what is kept for requests of its own size.
fn put_held_back(page: &mut Page, f: Figures, y: u64)
    requires at_in_bounds { Room 1020 page.old }
    requires y_bound { y ≤ 1900 }
    ensures { Grows 1020 page.old page.new }
{
    put_line(page, b"live", b"live: ", f.live, b"</text>\n", y);
    put_line(
        page,
        b"cache",
        b"cache: ",
        f.cache,
        b", each for a request of its own size alone; an emptying frees them</text>\n",
        y + 20,
    );
    put_line(
        page,
        b"fast",
        b"fast: ",
        f.fast,
        b", likewise; a joining frees them</text>\n",
        y + 40,
    );
}

fn put_largest(page: &mut Page, n: u64)
    requires { Room 160 page.old }
    ensures { Grows 160 page.old page.new }
{
    if n == 0 {
        page.bytes(b"neither a bin nor the top has room for a request</text>\n");
        return;
    }
    page.bytes(b"the largest request that a bin or the top has room for: ");
    page.decimal(n, 20);
    page.bytes(b" bytes</text>\n");
}

// The bins, with the largest chunk in them.
fn put_bins(page: &mut Page, bins: Share, largest: u64, y: u64)
    requires at_in_bounds { Room 380 page.old }
    requires y_bound { y ≤ 2000 }
    ensures { Grows 380 page.old page.new }
{
    put_line(page, b"bin", b"bins: ", bins, b", the largest ", y);
    page.decimal(largest, 20);
    page.bytes(b"</text>\n");
}

fn put_top(page: &mut Page, top: u64, y: u64)
    requires at_in_bounds { Room 240 page.old }
    requires y_bound { y ≤ 2000 }
    ensures { Grows 240 page.old page.new }
{
    put_patch(page, b"top", y);
    page.bytes(b"top: ");
    page.decimal(top, 20);
    page.bytes(b" bytes</text>\n");
}

// What has room for a request, and for which.
fn put_room(page: &mut Page, f: Figures, y: u64)
    requires at_in_bounds { Room 860 page.old }
    requires y_bound { y ≤ 1900 }
    ensures { Grows 860 page.old page.new }
{
    put_bins(page, f.bins, f.largest, y);
    put_top(page, f.top, y + 20);
    put_text(page, 120, y + 40);
    put_largest(page, largest_request(f.largest, f.top));
}

pub fn put_legend(page: &mut Page, f: Figures, y: u64)
    requires at_in_bounds { Room 1880 page.old }
    requires y_bound { y ≤ 1800 }
    ensures { Grows 1880 page.old page.new }
{
    put_held_back(page, f, y);
    put_room(page, f, y + 60);
}
