// Sizes and offsets: what a request needs, where a size belongs, the size word, chunk and mem offsets; the limits and the record's layout.
// Assumes nothing.
#![tactic(auto)]

mod table; // table.rt: the bins of the sizes below 16,384
mod bins; // bins.rt: the bin of any size
mod layout; // layout.rt: which word of the record is what
mod limits; // limits.rt: document 01's limits
mod size; // size.rt: the sizes that a request can need

ghost use Rattle.std.specs.Prelude.{◌≡◌, ◌+◌, ◌≤◌, ◌<◌, ◌^◌, option_map};
ghost use Rattle.sizes.specs.Sizes.{need, usable, cache_of, fast_of};
ghost use Rattle.sizes.specs.Needed.{needed_of};
ghost use Rattle.sizes.specs.SizeWord.{word_of, size_of_word, low_of_word, p_of_word};
ghost use Rattle.sizes.specs.Offsets.{mem_of, chunk_of};

pub use bins::{bin_of, least_of_bin};
pub use layout::{
    BEFORE_BINS, CACHE_COUNTS, CACHE_HEADS, EDITION, FAST_HEADS, KEY_HIGH, KEY_LOW, LENGTH_WORD,
    REMAINDER_WORD, TOP_WORD, bin_first, bin_last, bin_of_list,
};
pub use limits::{
    ALL_LISTS, BINS_FROM, CACHE_LISTS, CACHE_ROOM, CONSOLIDATE_FROM, FAST_FROM, FAST_LISTS, LARGE,
    LARGE_BIN, LAST_BIN, LEAST_ARENA, LEAST_CHUNK, MIXED, MOST_ARENA, MOST_CACHED, MOST_FAST,
    MOST_REQUEST, NEWEST, NONE32, NONE64, PLAIN, RECORD_BYTES, RECORD_WORDS, UNSORTED,
};
pub use size::Size;

// What a request needs: a chunk of that size; none if it is too large, and refused with number 2.
// The limit is tested before 23 is added, so that no request overflows.
pub fn need(n: u64) -> Option<Size>
    ensures { option_map (λ (s : Size). s.bytes) result ≡ needed_of n }
{
    if MOST_REQUEST < n {
        return None;
    }
    Some(Size { bytes: rounded(n) })
}

fn rounded(n: u64) -> u64
    requires { n ≤ 262144 }
    ensures { result ≡ need n }
{
    let size = (n + 23) / 16 * 16;
    if size < LEAST_CHUNK {
        return LEAST_CHUNK;
    }
    size
}

// The usable bytes of a chunk of size s.
pub fn usable(s: u64) -> u64
    requires { 8 ≤ s }
    ensures { result ≡ usable s }
{
    s - 8
}

pub fn cache_list(s: u64) -> usize
    requires { (32 ≤ s) × (s ≤ 1040) }
    ensures { (result ≡ cache_of s) × (result < 64) }
{
    ((s - 32) / 16) as usize
}

pub fn fast_list(s: u64) -> usize
    requires { (32 ≤ s) × (s ≤ 128) }
    ensures { (result ≡ fast_of s) × (result < 7) }
{
    (s / 16 - 2) as usize
}

// A chunk's size with P in bit 0.
#[derive(Clone, Copy)]
pub struct SizeWord(pub u64);

impl SizeWord {
    // Set: the chunk before is not free.
    pub const P: u64 = 1;

    pub fn make(size: u64, p: bool) -> SizeWord
        requires { size + 1 < 2 ^ 64 }
        ensures { result.0 ≡ word_of size p }
    {
        if p {
            SizeWord(size + SizeWord::P)
        } else {
            SizeWord(size)
        }
    }

    pub fn size(self) -> u64
        ensures { result ≡ size_of_word self.0 }
    {
        self.0 / 16 * 16
    }

    // P, and bits 1 to 3, which must be 0.
    pub fn low(self) -> u64
        ensures { result ≡ low_of_word self.0 }
    {
        self.0 % 16
    }

    pub fn has_p(self) -> bool
        ensures { result ≡ p_of_word self.0 }
    {
        self.0 % 2 == SizeWord::P
    }
}

// A chunk's offset, which the lists hold, and its mem's, which callers see.
#[derive(Clone, Copy)]
pub struct Chunk(pub u64);

#[derive(Clone, Copy)]
pub struct Mem(pub u64);

impl Chunk {
    pub fn mem(self) -> Mem
        requires { self.0 + 16 < 2 ^ 64 }
        ensures { result.0 ≡ mem_of self.0 }
    {
        Mem(self.0 + 16)
    }
}

impl Mem {
    // Null, and every other number below the mem of chunk 0, is no chunk's.
    pub fn chunk(self) -> Chunk
        requires { 16 ≤ self.0 }
        ensures { result.0 ≡ chunk_of self.0 }
    {
        Chunk(self.0 - 16)
    }
}
