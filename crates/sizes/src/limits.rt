// Every limit of document 01, by the name that specs/Limits.antt gives it, and the audit's order of lists. Assumes nothing.

// An arena is a multiple of 16 bytes, from the least to the most.
pub const LEAST_ARENA: usize = 32;

pub const MOST_ARENA: usize = 262144;

// A request above this is refused with number 2.
pub const MOST_REQUEST: u64 = 262144;

// The smallest chunk, and the smallest rest that a split leaves.
pub const LEAST_CHUNK: u64 = 32;

// The largest chunk that a cache list takes, how many lists there are, and how many chunks each takes.
pub const MOST_CACHED: u64 = 1040;

pub const CACHE_LISTS: usize = 64;

pub const CACHE_ROOM: u32 = 7;

// The largest chunk that a fast list takes, and how many lists there are.
pub const MOST_FAST: u64 = 128;

// A joining that yields so much has the fast chunks joined too.
pub const CONSOLIDATE_FROM: u64 = 65536;

pub const FAST_LISTS: usize = 10;

// The smallest large size and its bin, the unsorted bin, and the last bin.
pub const LARGE: u64 = 1024;

pub const LARGE_BIN: usize = 64;

pub const UNSORTED: usize = 1;

pub const LAST_BIN: usize = 126;

// The audit numbers the lists in the order cache, fast, bins: the first fast list, bin 1, and how many lists there are.
pub const FAST_FROM: u32 = 64;

pub const BINS_FROM: u32 = 74;

pub const ALL_LISTS: u32 = 200;

// The record's words, and its bytes.
pub const RECORD_WORDS: usize = 396;

pub const RECORD_BYTES: usize = 1584;

// The newest version of the rules, and of an image.
// Kept: versions are numbers, since later ones are asked for by order.
pub const NEWEST: u32 = 4;

// The editions: how the forward links of cache and fast lists are stored, as they are or mixed.
// Kept: numbers, since heap_open takes any number and the record's word may have any (the C interface, `edition?`).
pub const PLAIN: u32 = 1;

pub const MIXED: u32 = 2;

// No chunk: as a link in the arena, and as a word of the record.
pub const NONE64: u64 = 18446744073709551615;

pub const NONE32: u32 = 4294967295;
