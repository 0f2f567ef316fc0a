// All tiles, by rising offset, each in a form.
ghost use Rattle.std.specs.Prelude.{List, ℕ, ◌+◌, ◌*◌, ◌/◌, ◌≤◌, length};
ghost use Rattle.le.specs.Arena.{arena_words};
ghost use Rattle.audit_walks.specs.Marks.{Bytes, Flagging};
ghost use Rattle.audit_reached.specs.Reached.{ReachedBy};
ghost use Rattle.text.specs.Pages.{Room, Adds};
ghost use Rattle.image_text.specs.ImageText.{arena_text};

use crate::forms::put_tile;
use crate::{Form, State};
use chunk_fields::size_at;
use sizes::Chunk;
use text::Page;

// The tiles from 0 up to the top, and the top. m: the marks of the lists that reach them.
pub fn put_tiles(page: &mut Page, form: Form, a: &[u8], top: usize, m: &[u8])
    requires bytes { Bytes a.now m.now × Flagging (arena_words a.now) top }
    requires a_in_bounds { Room (201 * (length a.now / 32)) page.old }
    ensures upper_bound { page.new.at ≤ page.old.at + 201 * (length a.now / 32) }
    ensures by_index { (v : ℕ) (r : List ℕ) → ReachedBy v (arena_words a.now) r m.now
        → Adds (201 * (length a.now / 32)) page.old page.new (arena_text form v a.now r) }
{
    let mut o: usize = 0;
    // Kept: (d) a step is as long as the tile at o, so no range or chunks go over the tiles.
    while o < top {
        let s = size_at(a, Chunk(o as u64)) as usize;
        put_tile(page, form, o, s, State::Marked(m[o / 16]));
        o += s;
    }
    put_tile(page, form, top, a.len() - top, State::Top);
}
