// How many chunks and bytes are live, in the cache, on fast lists and in bins, by their marks.
ghost use Rattle.std.specs.Prelude.{◌≡◌, true, length};
ghost use Rattle.le.specs.Arena.{arena_words};
ghost use Rattle.machine.specs.Audit.{audit_by};
ghost use Rattle.audit_walks.specs.Marks.{ArenaBytes, Bytes};
ghost use Rattle.audit_reached.specs.Reached.{tiled?};

use audit_reached::FIRST_MARK;
use audit_walks::UNMARKED;
use chunk_fields::size_at;
use sizes::{BINS_FROM, Chunk, FAST_FROM, TOP_WORD};

#[derive(Clone, Copy, Default)]
pub struct Share {
    pub chunks: u64,
    pub bytes: u64,
}

impl Share {
    fn more(self, s: u64) -> Share {
        Share {
            chunks: self.chunks.wrapping_add(1),
            bytes: self.bytes.wrapping_add(s),
        }
    }
}

// largest: the size of the largest binned chunk; top: that of the top.
#[derive(Clone, Copy, Default)]
pub struct Figures {
    pub live: Share,
    pub cache: Share,
    pub fast: Share,
    pub bins: Share,
    pub largest: u64,
    pub top: u64,
}

impl Figures {
    // One chunk more, of this mark and size. Where the mark says that no chunk starts, or the top does, none.
    fn counted(self, mark: u8, s: u64) -> Figures {
        if mark == UNMARKED {
            return self;
        }
        if mark < FIRST_MARK {
            return Figures {
                live: self.live.more(s),
                ..self
            };
        }
        let i = u32::from(mark - FIRST_MARK);
        if i < FAST_FROM {
            return Figures {
                cache: self.cache.more(s),
                ..self
            };
        }
        if i < BINS_FROM {
            return Figures {
                fast: self.fast.more(s),
                ..self
            };
        }
        Figures {
            bins: self.bins.more(s),
            largest: self.largest.max(s),
            ..self
        }
    }
}

// Of all chunks but the top, by the marks of the lists that reach them.
fn count_chunks(a: &[u8], m: &[u8], top: u64) -> Figures
    requires { Bytes a.now m.now }
{
    let mut f = Figures {
        top,
        ..Figures::default()
    };
    for i in 0..a.len() / 16 {
        let s = size_at(a, Chunk(16 * i as u64));
        f = f.counted(m[i], s);
    }
    f
}

// Of a heap whose audit by version v of the rules has tiles to show.
pub fn figures_of(v: u16, a: &[u8], r: &[u32]) -> Figures
    requires { ArenaBytes a.now × (length r.now ≡ 396) × (tiled? (audit_by v (arena_words a.now) r.now) ≡ true) }
{
    let top = Chunk(r[TOP_WORD] as u64);
    let mut m = [UNMARKED; 16384];
    let _ = audit_walks::tile_fault(a, top, &mut m);
    audit_reached::reach(a, r, &mut m, u32::from(v));
    count_chunks(a, &m, size_at(a, top))
}
