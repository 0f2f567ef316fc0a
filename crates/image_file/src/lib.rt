// What the programs on images share. An image that is read whole from an input. And -o FILE: a file that is written whole or not at all, under a temporary name
// beside it, then renamed; what goes wrong is said on standard error, and nothing else is written there. Assumes nothing of its own: the input, the files, the
// arguments and standard error are std's, and no clause of std says what the system does.
#![tactic(auto)]

ghost use Rattle.std.specs.Prelude.{◌≡◌, ◌≤◌, length, replicate};

use std::env::{Env, FillError};
use std::fs::{Files, OpenFile};
use std::io::{Read, Write};
use std::{fs, io};
use text::Page;

// How long the longest image is.
pub const LONGEST_IMAGE: usize = 263737;

// The length of a buffer for an image that is read, which has one byte more: a file that fills it is too long.
pub const IMAGE_ROOM: usize = LONGEST_IMAGE + 1;

// Kept: not an array of a program's main, whose check it would make many times longer (b).
pub fn image_room() -> [u8; IMAGE_ROOM]
    ensures { result ≡ replicate 263738 0 }
{
    [0u8; IMAGE_ROOM]
}

// Reads until the buffer is full, the input ends or a read fails: how many bytes stand at its start.
pub fn read_full(from: &mut impl Read, buf: &mut [u8]) -> usize
    ensures { result ≤ length buf.new }
{
    let mut done = 0;
    while done < buf.len() {
        let n = from.read(&mut buf[done..]).unwrap_or(0);
        if n == 0 {
            break;
        }
        done += n;
    }
    done
}

// How long the longest path is that is taken.
const LONGEST_PATH: usize = 4096;

// The temporary name: the path and .part.
fn part_of(path: &[u8], part: &mut [u8]) -> usize
    requires path_len_bound { length path.now ≤ 4096 }
    requires part_len { length part.old ≡ 4101 }
    ensures { result ≤ 4101 }
{
    let mut page = Page { out: part, at: 0 };
    page.bytes(path);
    page.bytes(b".part");
    page.at
}

// std names a file by text: any other name is an error.
fn text_of(name: &[u8]) -> io::Result<&str> {
    str::from_utf8(name).map_err(|_| io::Error::new(
        io::ErrorKind::InvalidFilename,
        "the name is not UTF-8 text",
    ))
}

// The file is closed behind it. What the system could not keep of the bytes shows before.
fn written<F: Write + OpenFile + Drop>(mut file: F, bytes: &[u8]) -> io::Result<()> {
    file.write_all(bytes)?;
    file.sync_all()
}

// The temporary name is the first n bytes of part. A file that was made under it and did not get its bytes, or the other name, is removed.
fn save_as(files: &impl Files, path: &[u8], part: &[u8], n: usize, bytes: &[u8]) -> io::Result<()>
    requires { n ≤ length part.now }
{
    let name = text_of(&part[..n])?;
    let to = text_of(path)?;
    let file = fs::create(files, name)?;
    // Kept: a match: by `and_then`, and by a function of its own with `?`, heaplog and heapmend took 8 KiB more stack.
    let saved = match written(file, bytes) {
        Ok(()) => fs::rename(files, name, to),
        Err(e) => Err(e),
    };
    if saved.is_err() {
        let _ = fs::remove_file(files, name);
    }
    saved
}

// A line on standard error: the path, and what went wrong.
fn say(rt: &impl Eprint, path: &[u8], error: &io::Error) {
    let _ = match str::from_utf8(path) {
        Ok(text) => eprintln!(rt; "{text}: {error}"),
        Err(_) => {
            let text = path.escape_ascii();
            eprintln!(rt; "{text}: {error}")
        }
    };
}

// Writes the bytes to the file of that path, of at most 4,096 bytes.
pub fn save<R: Files + Eprint>(rt: &R, path: &[u8], bytes: &[u8])
    requires { length path.now ≤ 4096 }
{
    let mut part = [0u8; 4101];
    let n = part_of(path, &mut part);
    if let Err(e) = save_as(rt, path, &part, n, bytes) {
        say(rt, path, &e);
    }
}

// Whether there is an argument i; one that is longer than the buffer is there too.
fn is_given(rt: &impl Env, i: usize) -> bool {
    let mut word = [0u8; 1];
    match rt.arg(i, &mut word) {
        Err(FillError::NotPresent) => false,
        Ok(_) | Err(FillError::TooLong) => true,
    }
}

// Whether the program's arguments are -o and FILE, and no others.
pub fn asked(rt: &impl Env) -> bool {
    if !is_given(rt, 2) || is_given(rt, 3) {
        return false;
    }
    let mut word = [0u8; LONGEST_PATH];
    let k = rt.arg(1, &mut word).unwrap_or(0);
    &word[..k] == b"-o".as_slice()
}

// Writes the bytes to that FILE.
pub fn save_asked<R: Env + Files + Eprint>(rt: &R, bytes: &[u8]) {
    let mut path = [0u8; LONGEST_PATH];
    let k = rt.arg(2, &mut path).unwrap_or(0);
    save(rt, &path[..k], bytes);
}
