// Reading: numbers 6, 7 and 1 before the first write; then the record and the arena as they stand in the file, and their audit by the rules of its version. An
// older heap that is sound by these gets what it lacks: one of version 1 keys and skip links, one of version 2 skip links, one of version 3 nothing.
ghost use Rattle.std.specs.Prelude.{◌≡◌, true, ◌++◌, ◌-◌, ◌≤◌, length, drop};
ghost use Rattle.le.specs.Arena.{arena_words};
ghost use Rattle.machine.specs.Heap.{Heap};
ghost use Rattle.machine.specs.Writes.{apply};
ghost use Rattle.machine.specs.Calls.{shape?};
ghost use Rattle.sound.specs.Relation.{SoundBy};
ghost use Rattle.image.specs.Image.{known?, lacked_record, lacked_keys, lacked_skips, lacked, after_reading, heap_read, read_call, marked?, version_in, length_in, fits?};
ghost use Rattle.image.specs.Completed.{Old};

use crate::{LENGTH_AT, RECORD_AT, RECORD_BYTES_1, Unread, VERSION, VERSION_AT, record_bytes};
use machine::Fault;
use sizes::MOST_ARENA;
use text::{Page, put_bytes};

fn marked(file: &[u8]) -> bool
    ensures { result ≡ marked? file.now }
{
    file.len() >= LENGTH_AT && file.starts_with(b"HPI")
}

pub fn version_in(file: &[u8]) -> u16
    requires { 5 ≤ length file.now }
    ensures { result ≡ version_in file.now }
{
    le::read(file, VERSION_AT)
}

// The arena length in the file, where it has one that a buffer can be lent for.
// Kept: 0 where there is none, since it promises a length to lend whatever the file, and cannot fail (`upper_bound`, `value`).
pub fn length_in(file: &[u8]) -> usize
    ensures upper_bound { result ≤ 262144 }
    ensures value { 9 ≤ length file.now → length_in file.now ≤ 262144 → result ≡ length_in file.now }
{
    if file.len() < RECORD_AT {
        return 0;
    }
    let n = le::read::<u32>(file, LENGTH_AT) as usize;
    if MOST_ARENA < n {
        return 0;
    }
    n
}

fn known(v: u16) -> bool
    ensures { result ≡ known? v }
{
    (1..=VERSION).contains(&v)
}

// Whether the length in the file, which is of version v, is allowed, the file's and that of the lent arena, and the lent record is one.
fn fits(file: &[u8], v: u16, arena: &[u8], control: &[u8]) -> bool
    requires { v ≡ version_in file.now }
    ensures { result ≡ fits? file.now arena.now control.now }
{
    if !calls::shaped(arena, control) {
        return false;
    }
    if file.len() != RECORD_AT + record_bytes(v) + arena.len() {
        return false;
    }
    le::read::<u32>(file, LENGTH_AT) as usize == arena.len()
}

// What a record of 1,572 bytes lacks: key 0 and edition 1.
const LACKED: [u8; 12] = [0, 0, 0, 0, 0, 0, 0, 0, 1, 0, 0, 0];

// The record of a file; an older one is completed.
fn put_record(control: &mut [u8], part: &[u8])
    requires { (length control.old ≡ 1584) × (1572 ≤ length part.now) × (length part.now ≤ 1584) }
    ensures { control.new ≡ part.now ++ drop (length part.now - 1572) lacked_record }
{
    let from = part.len() - RECORD_BYTES_1;
    let mut page = Page {
        out: control,
        at: 0,
    };
    page.bytes(part);
    page.bytes(&LACKED[from..]);
}

// The keys that a heap of version v lacks: before version 2 those of its cached chunks.
fn write_lacked_keys(arena: &mut [u8], r: &[u32], v: u16)
    requires { Old v (arena_words arena.old) r.now }
    ensures { (h : Heap) → SoundBy v h (arena_words arena.old) r.now
        → arena_words arena.new ≡ apply (lacked_keys v h) (arena_words arena.old) }
{
    if 2 <= v {
        return;
    }
    image_keys::write_keys(arena, r);
}

// The skip links that a heap of version v lacks, which with its keys is sound by the rules of version 2: before version 3 those of its bins.
fn write_lacked_skips(arena: &mut [u8], r: &[u32], v: u16)
    requires { Old 2 (arena_words arena.old) r.now }
    ensures { (h : Heap) → SoundBy 2 h (arena_words arena.old) r.now
        → arena_words arena.new ≡ apply (lacked_skips v h) (arena_words arena.old) }
{
    if 3 <= v {
        return;
    }
    image_skips::write_skips(arena, r);
}

// What a heap of version v lacks, an older one that is sound by its rules: keys, and the skip links of its bins.
fn complete(arena: &mut [u8], r: &[u32], v: u16)
    requires { Old v (arena_words arena.old) r.now }
    ensures { (h : Heap) → SoundBy v h (arena_words arena.old) r.now
        → arena_words arena.new ≡ apply (lacked v h) (arena_words arena.old) }
{
    write_lacked_keys(arena, r, v);
    write_lacked_skips(arena, r, v);
}

// The heap that was read from a file of version v, and its audit by that version's rules; an older one that is sound gets what it lacks.
fn heap_read(arena: &mut [u8], control: &[u8], v: u16) -> Result<Result<(), Fault>, Unread>
    requires { (shape? arena.old control.now ≡ true) × (known? v ≡ true) }
    ensures { after_reading arena.new control.now result ≡ heap_read v arena.old control.now }
{
    let mut r = [0u32; 396];
    record_words::read_words(control, &mut r);
    let x = audit::audit_by(arena, &r, v as u32);
    if VERSION <= v {
        return Ok(x);
    }
    if !machine::is_sound(x) {
        return Ok(x);
    }
    complete(arena, &r, v);
    Ok(x)
}

pub fn read_image(
    file: &[u8],
    arena: &mut [u8],
    control: &mut [u8],
) -> Result<Result<(), Fault>, Unread>
    ensures { after_reading arena.new control.new result ≡ read_call file.now arena.old control.old }
{
    if !marked(file) {
        return Err(Unread::NoMark);
    }
    let v = version_in(file);
    if !known(v) {
        return Err(Unread::NoVersion);
    }
    if !fits(file, v, arena, control) {
        return Err(Unread::WrongLength);
    }
    let at = RECORD_AT + record_bytes(v);
    put_record(control, &file[RECORD_AT..at]);
    put_bytes(arena, &file[at..]);
    heap_read(arena, control, v)
}
