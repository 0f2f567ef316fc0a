// Tiles from 0: size a multiple of 16, at least 32, within what remains, bits 1 to 3 clear; the tile that reaches the end is the record's top.
// Assumes nothing.
ghost use Rattle.std.specs.Prelude.{◌≡◌};
ghost use Rattle.le.specs.Arena.{arena_words};
ghost use Rattle.audit_walks.specs.TileWord.{word_ok};
ghost use Rattle.audit_walks.specs.Marks.{Bytes, Clear, TilesDone};

use crate::marks::UNMET;
use chunk_fields::size_word_at;
use machine::Fault;
use sizes::{Chunk, LEAST_CHUNK, SizeWord};

pub fn tile_ok(x: SizeWord) -> bool
    ensures { result ≡ word_ok x.0 }
{
    if SizeWord::P < x.low() {
        return false;
    }
    LEAST_CHUNK <= x.size()
}

// The first bad tile, or sound; marks each chunk but the top as one that no list had yet.
pub fn tile_fault(a: &[u8], top: Chunk, m: &mut [u8]) -> Result<(), Fault>
    requires { Bytes a.now m.old × Clear m.old }
    ensures { TilesDone (arena_words a.now) top.0 result m.new }
{
    let mut o: usize = 0;
    let mut room = a.len();
    loop {
        let x = size_word_at(a, Chunk(o as u64));
        if !tile_ok(x) {
            return Err(Fault::Tile(o as u32));
        }
        let s = x.size() as usize;
        if room <= s {
            if room < s {
                return Err(Fault::Tile(o as u32));
            }
            if top.0 != o as u64 {
                return Err(Fault::Tile(o as u32));
            }
            return Ok(());
        }
        m[o / 16] = UNMET;
        o += s;
        room -= s;
    }
}
