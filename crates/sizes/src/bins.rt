// The bin of a chunk size: from the table below 16,384, by document 01's lines from there on; and the least size of a bin. Assumes nothing.
ghost use Rattle.std.specs.Prelude.{◌≡◌, ◌+◌, ◌*◌, ◌≤◌, ◌<◌, ◌^◌};
ghost use Rattle.sizes.specs.Sizes.{rows, large_bin, bin_of};
ghost use Rattle.sizes.specs.Rows.{bin_on, least_on};
ghost use Rattle.sizes.specs.BinSizes.{least_of};

use crate::limits::{LARGE, LARGE_BIN};
use crate::table;

// A line of document 01's rule for the large bins: s / divisor up to the limit gives base + s / divisor.
#[derive(Clone, Copy)]
struct Row {
    divisor: u64,
    limit: u64,
    base: u64,
}

// The lines in document 01's order; 126 after them.
const ROWS: [Row; 5] = [
    Row {
        divisor: 64,
        limit: 48,
        base: 48,
    },
    Row {
        divisor: 512,
        limit: 20,
        base: 91,
    },
    Row {
        divisor: 4096,
        limit: 10,
        base: 110,
    },
    Row {
        divisor: 32768,
        limit: 4,
        base: 119,
    },
    Row {
        divisor: 262144,
        limit: 2,
        base: 124,
    },
];

// The lines are read here alone, and held against the definition's.
fn rows() -> [Row; 5]
    ensures { result ≡ rows }
{
    ROWS
}

// The bin that a line gives, where it applies.
fn bin_on(row: Row, s: u64) -> Option<u64>
    requires { (0 < row.divisor) × (row.base + row.limit ≤ 126) }
    ensures { result ≡ bin_on row s }
{
    let q = s / row.divisor;
    if row.limit < q {
        return None;
    }
    Some(row.base + q)
}

// The bin of a size of 1,024 or more: the first line that applies.
fn large_bin(s: u64) -> u64
    ensures { result ≡ large_bin s }
{
    for row in rows() {
        if let Some(bin) = bin_on(row, s) {
            return bin;
        }
    }
    126
}

pub fn bin_of(s: u64) -> usize
    ensures { (result ≡ bin_of s) × (result ≤ 126) }
{
    if s < 16384 {
        return table::table_bin((s / 16) as usize) as usize;
    }
    large_bin(s) as usize
}

// The least size of bin k on a line, from where the line begins, where the line has the bin.
fn least_on(row: Row, begins: u64, k: u64) -> Option<u64>
    requires { (row.base + row.limit ≤ 126) × (row.base ≤ k) × (row.divisor * 126 < 2 ^ 64) }
    ensures { result ≡ least_on row begins k }
{
    if row.base + row.limit < k {
        return None;
    }
    Some(begins.max(row.divisor * (k - row.base)))
}

// The least size of bin j: on the first line that has j. A line begins where the one before it ends.
pub fn least_of_bin(j: usize) -> u64
    requires { j ≤ 126 }
    ensures { result ≡ least_of j }
{
    let k = j as u64;
    if j < LARGE_BIN {
        return 16 * k;
    }
    let mut begins = LARGE;
    for row in rows() {
        if let Some(least) = least_on(row, begins, k) {
            return least;
        }
        begins = row.divisor * (row.limit + 1);
    }
    begins
}
