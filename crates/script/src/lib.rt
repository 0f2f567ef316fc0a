// A line of a script for heaplog: its forms, what its bytes spell, and where it may stand. The grammar stands in specs/; script_reader reads it,
// script_format has the text that is printed. Assumes nothing.
#![tactic(auto)]

ghost use Rattle.std.specs.Prelude.{◌≡◌, [], ◌∷◌, ◌++◌, take};
ghost use Rattle.script.specs.Grammar.{kept, kept_bytes};

mod rules; // rules.rt: which line may stand where, and which one ends the run

pub use rules::{MOST_OPENED, ends_by, in_place, letter_of};

// A line of a script: open, grant, release, resize, settle (S: an emptying and a joining), or a line of another form.
#[derive(Clone, Copy)]
pub enum Line {
    Open(u32),
    Grant(u32),
    Release(u32),
    Resize { mem: u32, n: u32 },
    Settle,
    Other,
}

// How many bytes are kept of a line: one more than the longest good one has, which is a resize with two numbers of 7 digits.
pub const KEPT_BYTES: usize = 18;

// The first bytes of a line that is being read.
// Kept: bytes with a length beside them, since the project's memory is fixed.
#[derive(Clone, Copy)]
pub struct LineText {
    pub text: [u8; KEPT_BYTES],
    pub len: usize,
}

impl LineText {
    pub fn new() -> LineText
        ensures { kept result ≡ [] }
    {
        LineText {
            text: [0u8; KEPT_BYTES],
            len: 0,
        }
    }

    // One byte more, if there is room for it.
    pub fn push(&mut self, b: u8)
        ensures { kept self.new ≡ take kept_bytes (kept self.old ++ (b ∷ [])) }
    {
        if self.len < KEPT_BYTES {
            self.text[self.len] = b;
            self.len += 1;
        }
    }

    // The bytes that are kept: where len says more than there are, all.
    pub fn as_slice(&self) -> &[u8]
        ensures { result.now ≡ kept self.now }
    {
        self.text.get(..self.len).unwrap_or(&self.text)
    }
}
