// heapmend: reads an image from standard input, mends the heap in it, and prints a line for each number that changed; with -o FILE it writes the image of the mended
// heap, whole or not at all. Reading and writing stand here; what is printed and written stands in `repair_text`. Assumes nothing of its own: standard input and
// output are std's, and no clause of std says what the system gives and takes.
#![tactic(auto)]

ghost use Rattle.std.specs.Prelude.{◌≡◌, ◌≤◌, length};

use image_file::LONGEST_IMAGE;
use sizes::{MOST_ARENA, RECORD_BYTES};
use std::env::Env;
use std::fs::Files;

// Room for a line for each number of the longest arena and its record.
const OUT_LEN: usize = 2155660;

// Kept: not an array of main, whose check it would make many times longer (b).
fn out_buffer() -> [u8; OUT_LEN] {
    [0u8; OUT_LEN]
}

fn mended_buffer() -> [u8; LONGEST_IMAGE] {
    [0u8; LONGEST_IMAGE]
}

// The first n bytes of the lines. What cannot be written is lost.
fn write_lines(to: &impl Print, out: &[u8], n: usize)
    requires { n ≤ length out.now }
{
    let _ = to.write_all(&out[..n]);
}

// With -o FILE: the image, the first n bytes of those lent. A file that was refused has none.
fn save_mended<R: Env + Files + Eprint>(rt: &R, mended: &[u8], n: usize)
    requires { n ≤ length mended.now }
{
    if n != 0 && image_file::asked(rt) {
        image_file::save_asked(rt, &mended[..n]);
    }
}

fn main(rt: HostRuntime) {
    let mut file = image_file::image_room();
    let mut input = rt.stdin();
    let n = image_file::read_full(&mut input, &mut file);
    let mut was = [0u8; MOST_ARENA];
    let mut was_control = [0u8; RECORD_BYTES];
    let mut arena = [0u8; MOST_ARENA];
    let mut control = [0u8; RECORD_BYTES];
    let mut mended = mended_buffer();
    let mut out = out_buffer();
    let m = repair_text::mend_file(
        &mut out,
        &mut mended,
        &file[..n],
        &mut was,
        &mut was_control,
        &mut arena,
        &mut control,
    );
    write_lines(&rt, &out, m.lines);
    save_mended(&rt, &mended, m.image);
}
