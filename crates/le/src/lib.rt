// Little-endian numbers in a byte slice, of 2, 4 or 8 bytes, and the arena as words of 8 bytes. The record's words stand in the crate record_words.
// In machine code a write is one store, and a read one load where the whole number is used. Assumes nothing.
#![tactic(auto)]

ghost use Rattle.std.specs.Prelude.{◌≡◌, ℕ, ◌+◌, ◌*◌, ◌/◌, ◌%◌, ◌≤◌, length, get_or, set};
ghost use Rattle.le.specs.Number.{number, put};
ghost use Rattle.le.specs.Arena.{arena_words};

// A number of a fixed width, stored low byte first.
pub trait Stored {
    // how many bytes it takes, and which number it is
    ghost width: { ℕ };

    ghost value: { Self → ℕ };

    fn read(a: &[u8], at: usize) -> Self
        requires { at + width ≤ length a.now }
        ensures { value result ≡ number width a.now at };

    fn write(self, a: &mut [u8], at: usize)
        requires { at + width ≤ length a.old }
        ensures { a.new ≡ put width a.old at (value self) };
}

// Kept: three alike, since std's conversions are each number type's own.
impl Stored for u16 {
    ghost width = { 2 };

    ghost value = { λ v. v };

    fn read(a: &[u8], at: usize) -> u16 {
        u16::from_le_bytes([a[at], a[at + 1]])
    }

    fn write(self, a: &mut [u8], at: usize) {
        a[at..at + 2].copy_from_slice(&self.to_le_bytes());
    }
}

impl Stored for u32 {
    ghost width = { 4 };

    ghost value = { λ v. v };

    fn read(a: &[u8], at: usize) -> u32 {
        u32::from_le_bytes([a[at], a[at + 1], a[at + 2], a[at + 3]])
    }

    fn write(self, a: &mut [u8], at: usize) {
        a[at..at + 4].copy_from_slice(&self.to_le_bytes());
    }
}

impl Stored for u64 {
    ghost width = { 8 };

    ghost value = { λ v. v };

    fn read(a: &[u8], at: usize) -> u64 {
        u64::from_le_bytes([
            a[at],
            a[at + 1],
            a[at + 2],
            a[at + 3],
            a[at + 4],
            a[at + 5],
            a[at + 6],
            a[at + 7],
        ])
    }

    fn write(self, a: &mut [u8], at: usize) {
        a[at..at + 8].copy_from_slice(&self.to_le_bytes());
    }
}

pub fn read<T: Stored>(a: &[u8], at: usize) -> T
    requires { at + T.width ≤ length a.now }
    ensures { T.value result ≡ number T.width a.now at }
{
    T::read(a, at)
}

pub fn write<T: Stored>(a: &mut [u8], at: usize, v: T)
    requires { at + T.width ≤ length a.old }
    ensures { a.new ≡ put T.width a.old at (T.value v) }
{
    v.write(a, at);
}

// The arena's word at byte o.
pub fn word(a: &[u8], o: usize) -> u64
    requires { (o % 8 ≡ 0) × (o + 8 ≤ length a.now) }
    ensures { result ≡ get_or (arena_words a.now) (o / 8) 0 }
{
    read(a, o)
}

pub fn set_word(a: &mut [u8], o: usize, v: u64)
    requires { (o % 8 ≡ 0) × (o + 8 ≤ length a.old) }
    ensures { arena_words a.new ≡ set (arena_words a.old) (o / 8) v }
{
    write(a, o, v);
}
