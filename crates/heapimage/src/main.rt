// heapimage: reads an image from standard input and prints what the heap in it looks like, with -v its edition too, or with -svg a picture of it. Reading and
// writing stand here; what is printed stands in `image_text` and `image_svg`. Assumes nothing of its own: the arguments, standard input and output are std's, and no
// clause of std says what the system gives and takes.
#![tactic(auto)]

ghost use Rattle.std.specs.Prelude.{◌≡◌, ◌≤◌, length};

use sizes::{MOST_ARENA, RECORD_BYTES};
use std::env::Env;

// Room for the longest text or picture.
const OUT_LEN: usize = 1671168;

// Kept: not an array of main, whose check it would make many times longer (b).
fn out_buffer() -> [u8; OUT_LEN] {
    [0u8; OUT_LEN]
}

// What the one argument asks for.
#[derive(Clone, Copy)]
enum Asked {
    Text,
    Edition,
    Picture,
}

// Shows the file; arena, record and output buffer are lent.
fn show(file: &[u8], arena: &mut [u8], control: &mut [u8], out: &mut [u8], asked: Asked) -> usize
    requires arena_len { length arena.old ≡ 262144 }
    requires control_len { length control.old ≡ 1584 }
    requires out_len { length out.old ≡ 1671168 }
    ensures { result ≤ 1671168 }
{
    match asked {
        Asked::Text => image_text::put_image(out, false, file, arena, control),
        Asked::Edition => image_text::put_image(out, true, file, arena, control),
        Asked::Picture => image_svg::put_svg(out, file, arena, control),
    }
}

// The first n bytes of the output buffer. What cannot be written is lost.
fn write_shown(to: &impl Print, out: &[u8], n: usize)
    requires { n ≤ length out.now }
{
    let _ = to.write_all(&out[..n]);
}

// -v or -svg; without either, text.
fn asked_for(rt: &impl Env) -> Asked {
    let mut word = [0u8; 4096];
    let k = rt.arg(1, &mut word).unwrap_or(0);
    match &word[..k] {
        b"-v" => Asked::Edition,
        b"-svg" => Asked::Picture,
        _ => Asked::Text,
    }
}

fn main(rt: HostRuntime) {
    let mut file = image_file::image_room();
    let mut input = rt.stdin();
    let n = image_file::read_full(&mut input, &mut file);
    let mut arena = [0u8; MOST_ARENA];
    let mut control = [0u8; RECORD_BYTES];
    let mut out = out_buffer();
    let asked = asked_for(&rt);
    let m = show(&file[..n], &mut arena, &mut control, &mut out, asked);
    write_shown(&rt, &out, m);
}
