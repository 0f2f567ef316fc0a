// Which list reaches a chunk: each list is walked up to its first bad chunk, in the audit's order and by the audit's own tests (crate audit_lists). Linear in
// the arena. Assumes nothing.
#![tactic(auto)]

ghost use Rattle.std.specs.Prelude.{◌≡◌, ◌+◌, ◌<◌, eqb, length, get_or};
ghost use Rattle.le.specs.Arena.{arena_words};
ghost use Rattle.sizes.specs.Limits.{none64};
ghost use Rattle.machine.specs.View.{up, kind_at, head_word};
ghost use Rattle.audit_walks.specs.Marks.{Bytes, Started};
ghost use Rattle.audit_reached.specs.ReachTurn.{Before};
ghost use Rattle.audit_reached.specs.Reached.{tiled?, ReachedBy};

use chunk_fields::{Link, edition_in, size_at, stack_link_at};
use machine::Fault;
use sizes::{ALL_LISTS, Chunk, NONE64};

// The mark of a chunk that list 0 reaches; list i's is i more. One that none reaches keeps the mark of the tile walk.
pub const FIRST_MARK: u8 = 2;

// The audit's answer x leaves tiles, and lists to walk.
pub fn tiled(x: Result<(), Fault>) -> bool
    ensures { result ≡ tiled? x }
{
    matches!(x, Ok(()) | Err(Fault::List(_) | Fault::Flag(_)))
}

// Marks the chunks that list i reaches by version v of the rules with its mark, u. asked: the key that cached chunks must have, if any; o: the sizes that the
// list owns; d: how its links are stored; c: the chunk at hand; p, q: the one before it and its size; n: how many came before. No link is held against none
// before it is unmixed.
fn reach_list(a: &[u8], r: &[u32], m: &mut [u8], i: u32, v: u32)
    requires { Bytes a.now m.old × (length r.now ≡ 396) × (i < 200) × Before v (arena_words a.now) r.now m.old i }
    ensures { Before v (arena_words a.now) r.now m.new (i + 1) }
{
    let k = audit_lists::kind_at(i);
    let u = FIRST_MARK + (i as u8);
    let asked = audit_lists::asked_by(r, v);
    let o = audit_lists::owned_by(k);
    let edition = edition_in(r);
    let d = audit_lists::links_by(k, edition);
    let mut c = audit_lists::head(r, k);
    let mut p = Link(NONE64);
    let mut q: u64 = 0;
    let mut n: u32 = 0;
    while c.0 != NONE64 {
        if !audit_lists::unmet(m, c) {
            break;
        }
        let at = Chunk(c.0);
        let s = size_at(a, at);
        if !audit_lists::may_stand(a, k, o, asked, at, s, p, q, n) {
            break;
        }
        m[(at.0 / 16) as usize] = u;
        p = c;
        q = s;
        n += 1;
        c = stack_link_at(a, d, at);
    }
}

// Whether list i has no chunk.
fn is_empty(r: &[u32], i: u32) -> bool
    requires { (length r.now ≡ 396) × (i < 200) }
    ensures { result ≡ eqb (up (get_or r.now (head_word (kind_at i)) 0)) none64 }
{
    let c = audit_lists::head(r, audit_lists::kind_at(i));
    c.0 == NONE64
}

// By version v of the rules. The marks m are those that the tile walk leaves: each chunk but the top as one that no list had yet. Empty lists are passed over.
pub fn reach(a: &[u8], r: &[u32], m: &mut [u8], v: u32)
    requires { Bytes a.now m.old × (length r.now ≡ 396) × Started (arena_words a.now) m.old }
    ensures { ReachedBy v (arena_words a.now) r.now m.new }
{
    for i in 0..ALL_LISTS {
        if !is_empty(r, i) {
            reach_list(a, r, m, i, v);
        }
    }
}
