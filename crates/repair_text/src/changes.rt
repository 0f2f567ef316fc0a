// A line for each number of record and arena that a repair changed.
ghost use Rattle.std.specs.Prelude.{◌≡◌, ◌⊎◌, ◌+◌, ◌*◌, ◌/◌, ◌%◌, ◌≤◌, length};
ghost use Rattle.le.specs.Number.{number, words};
ghost use Rattle.le.specs.Arena.{arena_words};
ghost use Rattle.machine.specs.Calls.{words_of};
ghost use Rattle.text.specs.Pages.{Room, Adds};
ghost use Rattle.repair_text.specs.Changes.{line_text, change_text, changes_text, record_letter, arena_letter};

use text::Page;

// LETTER PLACE OLD NEW
fn put_line(page: &mut Page, letter: u8, place: usize, old: u64, new: u64)
    requires { Room 65 page.old }
    ensures { Adds 65 page.old page.new (line_text letter place old new) }
{
    page.byte(letter);
    page.field(place as u64);
    page.field(old);
    page.field(new);
    page.byte(b'\n');
}

// The line of a number that changed.
fn put_change(page: &mut Page, letter: u8, place: usize, old: u64, new: u64)
    requires { Room 65 page.old }
    ensures { Adds 65 page.old page.new (change_text letter place old new) }
{
    if old == new {
        return;
    }
    put_line(page, letter, place, old, new);
}

// The number of `width` bytes at byte o.
fn number_at(a: &[u8], o: usize, width: usize) -> u64
    requires width { (width ≡ 4) ⊎ (width ≡ 8) }
    requires in_bounds { o + width ≤ length a.now }
    ensures { result ≡ number width a.now o }
{
    if width == 4 {
        return u64::from(le::read::<u32>(a, o));
    }
    le::read::<u64>(a, o)
}

// The numbers of `width` bytes that differ, by rising place.
fn put_numbers(page: &mut Page, letter: u8, width: usize, old: &[u8], new: &[u8])
    requires width { (width ≡ 4) ⊎ (width ≡ 8) }
    requires new_len { length new.now ≡ length old.now }
    requires room { Room (65 * (length old.now / width)) page.old }
    ensures { let n = length old.now / width in
        Adds (65 * n) page.old page.new (changes_text letter width 0 (words width n old.now) (words width n new.now)) }
{
    for i in 0..old.len() / width {
        let o = width * i;
        let x = number_at(old, o, width);
        let y = number_at(new, o, width);
        put_change(page, letter, o, x, y);
    }
}

// The record's words, from bytes to bytes.
pub fn put_record_changes(page: &mut Page, old: &[u8], new: &[u8])
    requires { (length old.now ≡ 1584) × (length new.now ≡ 1584) × Room 25740 page.old }
    ensures { Adds 25740 page.old page.new (changes_text record_letter 4 0 (words_of old.now) (words_of new.now)) }
{
    put_numbers(page, b'r', 4, old, new);
}

// The arena's numbers.
pub fn put_arena_changes(page: &mut Page, old: &[u8], new: &[u8])
    requires { (length old.now % 8 ≡ 0) × (length new.now ≡ length old.now) × (length old.now ≤ 262144) × Room (65 * (length old.now / 8)) page.old }
    ensures { Adds (65 * (length old.now / 8)) page.old page.new (changes_text arena_letter 8 0 (arena_words old.now) (arena_words new.now)) }
{
    put_numbers(page, b'a', 8, old, new);
}
