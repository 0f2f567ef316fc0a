// Lists that are empty by the record's words alone: most are so, and nothing else of them is looked at. Assumes nothing.
#![tactic(auto)]

ghost use Rattle.std.specs.Prelude.{◌≡◌, true, ◌+◌, ◌≤◌, length};
ghost use Rattle.audit_empty_lists.specs.Skips.{AllFrom, Skipped};

use sizes::{
    BEFORE_BINS, BINS_FROM, CACHE_COUNTS, CACHE_HEADS, FAST_FROM, FAST_HEADS, LAST_BIN, NONE32,
    bin_first, bin_last, bin_of_list,
};

// From here on fewer than four bins are left, and fewer than eight cache lists: LAST_BIN less 2, FAST_FROM less 7.
const LAST_BINS: usize = 124;

const LAST_CACHES: u32 = 57;

// Whether the eight words from f on are all v.
// Kept: no `==` of slices and no `all`, which stop at the first word that differs: by them an audit's empty lists take up to five times the instructions, where
// here the compiler compares four words at once.
fn eight_are(r: &[u32], f: usize, v: u32) -> bool
    requires { f + 8 ≤ length r.now }
    ensures { result ≡ true → AllFrom r.now f 8 v }
{
    let mut differ = 0;
    for w in &r[f..f + 8] {
        differ |= *w ^ v;
    }
    differ == 0
}

// The first list from number i on that is not empty, or ALL_LISTS, where i is a bin's. Four at a time, whose words stand in a row, while there are four.
fn skip_bins(r: &[u32], i: u32) -> u32
    requires { (length r.now ≡ 396) × (74 ≤ i) × (i ≤ 200) }
    ensures { Skipped r.now i result }
{
    let mut b = bin_of_list(i);
    // Kept: a `while`, since the search by one goes on from where this one ends, which a `for` over `step_by` does not tell.
    while b < LAST_BINS {
        if !eight_are(r, bin_first(b), NONE32) {
            break;
        }
        b += 4;
    }
    skip_one_by_one(r, b) as u32 + BEFORE_BINS
}

// The same, bin by bin, in numbers of bins: from bin i on, a bin or the number after the last.
fn skip_one_by_one(r: &[u32], i: usize) -> usize
    requires { (length r.now ≡ 396) × (1 ≤ i) × (i ≤ 127) }
    ensures { Skipped r.now (i + 73) (result + 73) }
{
    for b in i..=LAST_BIN {
        if r[bin_first(b)] != NONE32 || r[bin_last(b)] != NONE32 {
            return b;
        }
    }
    LAST_BIN + 1
}

// The same where i is a fast list's or a bin's.
fn skip_fast(r: &[u32], i: u32) -> u32
    requires { (length r.now ≡ 396) × (64 ≤ i) × (i ≤ 200) }
    ensures { Skipped r.now i result }
{
    for j in i..BINS_FROM {
        if r[FAST_HEADS + ((j - FAST_FROM) as usize)] != NONE32 {
            return j;
        }
    }
    skip_bins(r, i.max(BINS_FROM))
}

// The same; the first eight fast lists, whose words stand in a row, at once.
fn skip_eight_fast(r: &[u32], i: u32) -> u32
    requires { (length r.now ≡ 396) × (64 ≤ i) × (i ≤ 200) }
    ensures { Skipped r.now i result }
{
    if i == FAST_FROM && eight_are(r, FAST_HEADS, NONE32) {
        return skip_fast(r, i + 8);
    }
    skip_fast(r, i)
}

// The same, cache list by cache list, where i may be any list's.
fn skip_caches(r: &[u32], i: u32) -> u32
    requires { (length r.now ≡ 396) × (i ≤ 200) }
    ensures { Skipped r.now i result }
{
    for j in i..FAST_FROM {
        if r[CACHE_HEADS + (j as usize)] != NONE32 || r[CACHE_COUNTS + (j as usize)] != 0 {
            return j;
        }
    }
    skip_eight_fast(r, i.max(FAST_FROM))
}

// The first list from number i on that is not empty, or ALL_LISTS. From a bin on there are bins alone; before, eight cache lists at a time, while there are
// eight.
pub fn skip(r: &[u32], i: u32) -> u32
    requires { (length r.now ≡ 396) × (i ≤ 200) }
    ensures { Skipped r.now i result }
{
    if BINS_FROM <= i {
        return skip_bins(r, i);
    }
    let mut j = i;
    // Kept: a `while`, for the same reason as in `skip_bins`.
    while j < LAST_CACHES {
        if !eight_are(r, CACHE_HEADS + (j as usize), NONE32)
            || !eight_are(r, CACHE_COUNTS + (j as usize), 0)
        {
            break;
        }
        j += 8;
    }
    skip_caches(r, j)
}
