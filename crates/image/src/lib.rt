// A heap in a file: written to and read from lent bytes. Each is the definition's call on the same bytes, refusals included, on any input: none has a
// `requires`. Assumes nothing.
#![tactic(auto)]

mod write; // write.rt
mod read; // read.rt

ghost use Rattle.std.specs.Prelude.{◌≡◌};
ghost use Rattle.image.specs.Image.{record_bytes_by, unread_no};

pub use read::{length_in, read_image, version_in};
use sizes::{NEWEST, RECORD_BYTES};
pub use write::write_image;

// What a writing writes.
pub const VERSION: u16 = NEWEST as u16;

// Where the file's parts stand, behind the mark.
pub const VERSION_AT: usize = 3;

pub const LENGTH_AT: usize = 5;

pub const RECORD_AT: usize = 9;

pub const ARENA_AT: usize = RECORD_AT + RECORD_BYTES;

// The record's bytes in a file of version 1, which has no key, and of versions 2 and 3, which have no edition.
const RECORD_BYTES_1: usize = 1572;

const RECORD_BYTES_2: usize = 1580;

// The record's bytes in a file of version v.
pub fn record_bytes(v: u16) -> usize
    ensures { result ≡ record_bytes_by v }
{
    if v < 2 {
        return RECORD_BYTES_1;
    }
    if v < 4 {
        return RECORD_BYTES_2;
    }
    RECORD_BYTES
}

// Why a reading is refused, in the order in which it is tested: document 02's numbers 6, 7 and 1.
#[derive(Clone, Copy)]
pub enum Unread {
    NoMark,
    NoVersion,
    WrongLength,
}

impl Unread {
    // The document's number.
    pub fn no(self) -> u32
        ensures { result ≡ unread_no self }
    {
        match self {
            Unread::NoMark => 6,
            Unread::NoVersion => 7,
            Unread::WrongLength => 1,
        }
    }
}
