// Open: the length with P at byte 8, and the record of one tile, the top. A refused open leaves a closed record, where there is one of 1,584 bytes.
ghost use Rattle.std.specs.Prelude.{◌≡◌};
ghost use Rattle.machine.specs.Calls.{after, open_call};
ghost use Rattle.calls.specs.Blank.{blank, empty};

use crate::shape::allowed;
use machine::{Answer, Refusal};
use sizes::{
    CACHE_COUNTS, CACHE_LISTS, Chunk, EDITION, LENGTH_WORD, NONE32, RECORD_BYTES, TOP_WORD,
};

// A record with length n and top t, counts 0, no chunk anywhere, the key and the edition.
fn fill(r: &mut [u32], n: u32, t: u32, key: u64, edition: u32)
    requires { r.old ≡ empty }
    ensures { r.new ≡ blank n t key edition }
{
    r[LENGTH_WORD] = n;
    r[TOP_WORD] = t;
    r[CACHE_COUNTS..CACHE_COUNTS + CACHE_LISTS].fill(0);
    chunk_fields::set_key_in(r, key);
    r[EDITION] = edition;
}

pub fn open(arena: &mut [u8], control: &mut [u8], key: u64, edition: u32) -> Result<Answer, Refusal>
    ensures { after arena.new control.new result ≡ open_call arena.old control.old key edition }
{
    if control.len() != RECORD_BYTES {
        return Err(Refusal::Shape);
    }
    let mut r = [NONE32; 396];
    let n = arena.len();
    if !allowed(n) {
        fill(&mut r, 0, NONE32, 0, 0);
        record_words::write_words(control, &r);
        return Err(Refusal::Shape);
    }
    if !audit::is_edition(edition) {
        fill(&mut r, 0, NONE32, 0, 0);
        record_words::write_words(control, &r);
        return Err(Refusal::Edition);
    }
    fill(&mut r, n as u32, 0, key, edition);
    record_words::write_words(control, &r);
    chunk_fields::set_size(arena, Chunk(0), n as u64, true);
    Ok(Answer::Done)
}
