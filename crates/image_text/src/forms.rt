// A tile as a line of text, OFFSET SIZE STATE, or as a rectangle of a picture with that line for a title.
ghost use Rattle.std.specs.Prelude.{[], ◌∷◌, ◌++◌};
ghost use Rattle.text.specs.Text.{blank, decimal, field};
ghost use Rattle.text.specs.Pages.{Room, Adds};
ghost use Rattle.image_text.specs.ImageText.{tile_text, place_is, width_is, title_is, rect_text, form_text, told_text};

use crate::words::put_state;
use crate::{Form, State};
use text::Page;

// A tile's offset and size, and a blank.
fn put_place(page: &mut Page, o: usize, s: usize)
    requires { Room 42 page.old }
    ensures { Adds 42 page.old page.new (decimal 20 o ++ (field s ++ (blank ∷ []))) }
{
    page.decimal(o as u64, 20);
    page.field(s as u64);
    page.byte(b' ');
}

fn put_line(page: &mut Page, o: usize, s: usize, state: State)
    requires { Room 69 page.old }
    ensures { Adds 69 page.old page.new (tile_text o s (told_text state)) }
{
    put_place(page, o, s);
    put_state(page, state);
    page.byte(b'\n');
}

// A rectangle behind its class: place, width and the title's place.
fn put_measures(page: &mut Page, o: usize, s: usize)
    requires { Room 116 page.old }
    ensures { Adds 116 page.old page.new
        (place_is ++ (decimal 20 o ++ (width_is ++ (decimal 20 s ++ (title_is ++ (decimal 20 o ++ (field s ++ (blank ∷ [])))))))) }
{
    page.bytes(b"\" x=\"");
    page.decimal(o as u64, 20);
    page.bytes(b"\" width=\"");
    page.decimal(s as u64, 20);
    page.bytes(b"\" height=\"1\"><title>");
    put_place(page, o, s);
}

fn put_rect(page: &mut Page, o: usize, s: usize, state: State)
    requires { Room 201 page.old }
    ensures { Adds 201 page.old page.new (rect_text o s (told_text state)) }
{
    page.bytes(b"<rect class=\"");
    put_state(page, state);
    put_measures(page, o, s);
    put_state(page, state);
    page.bytes(b"</title></rect>\n");
}

// A tile in a form.
pub fn put_tile(page: &mut Page, form: Form, o: usize, s: usize, state: State)
    requires { Room 201 page.old }
    ensures { Adds 201 page.old page.new (form_text form o s (told_text state)) }
{
    match form {
        Form::Lines => put_line(page, o, s, state),
        Form::Rects => put_rect(page, o, s, state),
    }
}
