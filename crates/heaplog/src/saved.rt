// -o FILE: the image of the heap that the run leaves. No file if no arena was opened.
ghost use Rattle.std.specs.Prelude.{◌≡◌, ◌≤◌, length};

use image::ARENA_AT;
use std::env::Env;
use std::fs::Files;

// The image of the longest arena that heaplog opens.
fn file_buffer() -> [u8; 50745]
    ensures { 50745 ≡ length result }
{
    [0u8; 50745]
}

// The image of the arena goes to the file of that path, by way of the lent bytes. One of no allowed length was not opened, and its image is refused.
fn save_image<R: Files + Eprint>(rt: &R, arena: &[u8], control: &[u8], file: &mut [u8], path: &[u8])
    requires { length path.now ≤ 4096 }
{
    if image::write_image(arena, control, file).is_ok() {
        image_file::save(rt, path, file);
    }
}

// The arena is the first n bytes of those lent.
fn save_opened<R: Files + Eprint>(rt: &R, arena: &[u8], control: &[u8], n: usize, path: &[u8])
    requires arena_len { length arena.now ≡ 49152 }
    requires n_bound { n ≤ 49152 }
    requires path_len_bound { length path.now ≤ 4096 }
{
    let mut file = file_buffer();
    let m = ARENA_AT + n;
    save_image(rt, &arena[..n], control, &mut file[..m], path);
}

// With the arguments -o and FILE, and no others.
pub fn save_heap<R: Env + Files + Eprint>(rt: &R, arena: &[u8], control: &[u8], n: usize)
    requires arena_len { length arena.now ≡ 49152 }
    requires n_bound { n ≤ 49152 }
{
    if !image_file::asked(rt) {
        return;
    }
    let mut path = [0u8; 4096];
    let j = rt.arg(2, &mut path).unwrap_or(0);
    save_opened(rt, arena, control, n, &path[..j]);
}
