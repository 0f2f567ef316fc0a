// Which line may stand where in a script: A in the first line and nowhere else, and not above what heaplog has; and which one ends the run. Assumes nothing.
ghost use Rattle.std.specs.Prelude.{◌≡◌};
ghost use Rattle.script.specs.Rules.{in_place?, letter_of, ends_by?};

use crate::Line;
use machine::{Answer, Refusal};

// The longest arena that a script can open.
pub const MOST_OPENED: u32 = 49152;

// Whether the line with number k, from 1, is run; if not, heaplog prints `? k` and ends.
pub fn in_place(k: u64, line: Line) -> bool
    ensures { result ≡ in_place? k line }
{
    match line {
        Line::Open(n) => k == 1 && n <= MOST_OPENED,
        Line::Grant(_) | Line::Release(_) | Line::Resize { .. } | Line::Settle => k != 1,
        Line::Other => false,
    }
}

// The letter of a line, and `?` for a line of another form.
pub fn letter_of(line: Line) -> u8
    ensures { result ≡ letter_of line }
{
    match line {
        Line::Open(_) => b'A',
        Line::Grant(_) => b'G',
        Line::Release(_) => b'R',
        Line::Resize { .. } => b'Z',
        Line::Settle => b'S',
        Line::Other => b'?',
    }
}

// A refused open ends the run.
pub fn ends_by(line: Line, x: Result<Answer, Refusal>) -> bool
    ensures { result ≡ ends_by? line x }
{
    matches!(line, Line::Open(_)) && x.is_err()
}
