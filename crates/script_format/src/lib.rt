// The text that heaplog prints: the header, and a line for each call. Each function adds to a page.
// Assumes nothing.
#![tactic(auto)]

ghost use Rattle.std.specs.Prelude.{◌≡◌, ◌+◌};
ghost use Rattle.text.specs.Pages.{Room, Adds};
ghost use Rattle.script_format.specs.Format.{header, answer_text};

use machine::{Answer, Refusal, answer_numbers};
use text::Page;

pub fn put_header(page: &mut Page)
    requires { Room 22 page.old }
    ensures exact { page.new.at ≡ page.old.at + 22 }
    ensures adds { Adds 22 page.old page.new header }
{
    page.bytes(b"call no at usable top\n");
}

// A call's line: its letter, the answer's numbers, and the top after it.
pub fn put_answer(page: &mut Page, letter: u8, x: Result<Answer, Refusal>, top: u32)
    requires { Room 86 page.old }
    ensures { Adds 86 page.old page.new (answer_text letter x top) }
{
    let n = answer_numbers(x);
    page.byte(letter);
    page.field(u64::from(n.no));
    page.field(u64::from(n.mem));
    page.field(u64::from(n.usable));
    page.field(u64::from(top));
    page.byte(b'\n');
}
