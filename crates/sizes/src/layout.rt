// Which word of the record is what: length, top, last remainder; 64 cache heads, 64 counts; 10 fast heads; first and last of bins 1 to 126;
// the key's low and high half.
// The names are those of specs/Layout.antt. Assumes nothing.
ghost use Rattle.std.specs.Prelude.{◌≡◌, ◌-◌, ◌≤◌};
ghost use Rattle.sizes.specs.Layout.{bin_first, bin_last};

pub const LENGTH_WORD: usize = 0;

pub const TOP_WORD: usize = 1;

pub const REMAINDER_WORD: usize = 2;

// The first of the cache heads, of the cache counts, of the fast heads.
pub const CACHE_HEADS: usize = 3;

pub const CACHE_COUNTS: usize = 67;

pub const FAST_HEADS: usize = 131;

pub const KEY_LOW: usize = 393;

pub const KEY_HIGH: usize = 394;

pub const EDITION: usize = 395;

// The word of the first chunk of bin j, and of its last.
pub fn bin_first(j: usize) -> usize
    requires { j ≤ 126 }
    ensures { result ≡ bin_first j }
{
    139 + 2 * j
}

pub fn bin_last(j: usize) -> usize
    requires { j ≤ 126 }
    ensures { result ≡ bin_last j }
{
    140 + 2 * j
}

// The list before bin 1 in the audit's order.
pub const BEFORE_BINS: u32 = 73;

// The bin that is the audit's list number i.
pub fn bin_of_list(i: u32) -> usize
    requires { 74 ≤ i }
    ensures { result ≡ i - 73 }
{
    (i - BEFORE_BINS) as usize
}
