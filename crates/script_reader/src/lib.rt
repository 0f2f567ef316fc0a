// A line of a script from its bytes: fed one by one to a text of fixed size, and read as the grammar says. Assumes nothing.
#![tactic(auto)]

ghost use Rattle.std.specs.Prelude.{◌≡◌, [], ◌∷◌, ◌++◌, ◌==◌, take, position};
ghost use Rattle.text.specs.Text.{blank};
ghost use Rattle.script.specs.Grammar.{number_of, numbered, resized, spaced, line_of, kept, kept_bytes};

use script::{Line, LineText};

// The longest number that is read; one of so many digits fits.
const MOST_DIGITS: usize = 7;

pub fn no_bytes() -> LineText
    ensures { kept result ≡ [] }
{
    LineText::new()
}

// One byte more. Of a line longer than the longest good one the first 18 bytes are kept.
pub fn feed(s: LineText, b: u8) -> LineText
    ensures { kept result ≡ take kept_bytes (kept s ++ (b ∷ [])) }
{
    let mut s = s;
    s.push(b);
    s
}

fn number_of(t: &[u8]) -> Option<u32>
    ensures { result ≡ number_of t.now }
{
    if t.is_empty() || t.len() > MOST_DIGITS {
        return None;
    }
    let mut n: u32 = 0;
    for b in t {
        if !b.is_ascii_digit() {
            return None;
        }
        n = 10 * n + u32::from(*b - b'0');
    }
    Some(n)
}

// A line of a letter and a number.
fn line_numbered(x: u8, n: Option<u32>) -> Line
    ensures { result ≡ numbered x n }
{
    let Some(n) = n else {
        return Line::Other;
    };
    match x {
        b'A' => Line::Open(n),
        b'G' => Line::Grant(n),
        b'R' => Line::Release(n),
        _ => Line::Other,
    }
}

fn first_blank(t: &[u8]) -> Option<usize>
    ensures { result ≡ position (λ b. b == blank) t.now }
{
    t.iter().position(|b| *b == b' ')
}

// A line of Z and two numbers.
fn line_resized(m: Option<u32>, n: Option<u32>) -> Line
    ensures { result ≡ resized m n }
{
    match (m, n) {
        (Some(mem), Some(n)) => Line::Resize { mem, n },
        _ => Line::Other,
    }
}

// A line of a letter, a blank and the bytes behind it.
fn line_spaced(x: u8, t: &[u8]) -> Line
    ensures { result ≡ spaced x t.now }
{
    if x != b'Z' {
        return line_numbered(x, number_of(t));
    }
    let Some(at) = first_blank(t) else {
        return Line::Other;
    };
    line_resized(number_of(&t[..at]), number_of(&t[at + 1..]))
}

pub fn line_of(t: &[u8]) -> Line
    ensures { result ≡ line_of t.now }
{
    // Kept: guards. A byte that stands in a slice pattern tells the proof the length alone.
    match t {
        [x] if *x == b'S' => Line::Settle,
        [x, y, rest @ ..] if *y == b' ' => line_spaced(*x, rest),
        _ => Line::Other,
    }
}

// The line that was fed.
pub fn line_read(s: LineText) -> Line
    ensures { result ≡ line_of (kept s) }
{
    line_of(s.as_slice())
}
