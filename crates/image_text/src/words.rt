// The audit's answer and a chunk's state, in words.
ghost use Rattle.std.specs.Prelude.{Err};
ghost use Rattle.text.specs.Pages.{Room, Adds};
ghost use Rattle.image_text.specs.ImageText.{list_text, audit_text, mark_text, told_text};

use crate::State;
use audit_reached::FIRST_MARK;
use machine::{Fault, ListKind};
use text::Page;

pub fn put_list(page: &mut Page, k: ListKind)
    requires { Room 26 page.old }
    ensures { Adds 26 page.old page.new (list_text k) }
{
    match k {
        ListKind::Cache(i) => {
            page.bytes(b"cache");
            page.field(i as u64);
        }
        ListKind::Fast(i) => {
            page.bytes(b"fast");
            page.field(i as u64);
        }
        ListKind::Bin(j) => {
            page.bytes(b"bin");
            page.field(j as u64);
        }
    }
}

// The line of the audit's answer.
pub fn put_audit(page: &mut Page, x: Result<(), Fault>)
    requires { Room 40 page.old }
    ensures { Adds 40 page.old page.new (audit_text x) }
{
    match x {
        Ok(()) => page.bytes(b"sound\n"),
        Err(fault) => put_fault(page, fault),
    }
}

// That of a fault.
fn put_fault(page: &mut Page, fault: Fault)
    requires { Room 40 page.old }
    ensures { Adds 40 page.old page.new (audit_text (Err fault)) }
{
    match fault {
        Fault::Record => page.bytes(b"fault record\n"),
        Fault::Tile(o) => {
            page.bytes(b"fault tile");
            page.field(o as u64);
            page.byte(b'\n');
        }
        Fault::List(k) => {
            page.bytes(b"fault ");
            put_list(page, k);
            page.byte(b'\n');
        }
        Fault::Flag(o) => {
            page.bytes(b"fault flag");
            page.field(o as u64);
            page.byte(b'\n');
        }
        Fault::Shape => {}
    }
}

// By its mark, the list that reaches a chunk, or live.
fn put_mark(page: &mut Page, mark: u8)
    requires { Room 26 page.old }
    ensures { Adds 26 page.old page.new (mark_text mark) }
{
    if mark < FIRST_MARK {
        page.bytes(b"live");
        return;
    }
    let i = (mark - FIRST_MARK) as u32;
    put_list(page, audit_lists::kind_at(i));
}

pub fn put_state(page: &mut Page, state: State)
    requires { Room 26 page.old }
    ensures { Adds 26 page.old page.new (told_text state) }
{
    match state {
        State::Top => page.bytes(b"top"),
        State::Marked(mark) => put_mark(page, mark),
    }
}
