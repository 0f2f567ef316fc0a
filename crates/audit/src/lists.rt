// Lists, in the order cache, fast, bins. A list is bad if it names an offset that is no chunk or is the top, a chunk met before, one of a size not its own,
// a wrong back link or last, a wrong order, a count that is not its length, more than 7, a wrong key, or wrong skip links. Assumes nothing.
ghost use Rattle.std.specs.Prelude.{◌≡◌, length};
ghost use Rattle.le.specs.Arena.{arena_words};
ghost use Rattle.audit_walks.specs.Marks.{Bytes, Started};
ghost use Rattle.audit.specs.Done.{ListsDone};

use chunk_fields::{Link, edition_in, size_at, stack_link_at};
use machine::Fault;
use sizes::{ALL_LISTS, Chunk, NONE64};

// The first bad list by version v of the rules, or sound; marks each chunk of a list with the list's mark, u. asked: the key that cached chunks must have,
// if any; o: the sizes that the list owns; d: how its links are stored; c: the chunk at hand; p, q: the one before it and its size; n: how many came before.
// No link is held against none before it is unmixed.
// Kept: the nest left by label, whose inner walk audit_reached has once more for one list: document 01 names the form (D80).
pub fn list_fault(a: &[u8], r: &[u32], m: &mut [u8], v: u32) -> Result<(), Fault>
    requires { Bytes a.now m.old × (length r.now ≡ 396) × Started (arena_words a.now) m.old }
    ensures { ListsDone v (arena_words a.now) r.now result m.new }
{
    let asked = audit_lists::asked_by(r, v);
    let edition = edition_in(r);
    let mut i: u32 = 0;
    'lists: loop {
        let j = audit_empty_lists::skip(r, i);
        if j == ALL_LISTS {
            break 'lists Ok(());
        }
        let k = audit_lists::kind_at(j);
        let u = audit_lists::mark(k);
        let o = audit_lists::owned_by(k);
        let d = audit_lists::links_by(k, edition);
        let mut c = audit_lists::head(r, k);
        let mut p = Link(NONE64);
        let mut q: u64 = 0;
        let mut n: u32 = 0;
        while c.0 != NONE64 {
            if !audit_lists::unmet(m, c) {
                break 'lists Err(Fault::List(k));
            }
            let at = Chunk(c.0);
            let s = size_at(a, at);
            if !audit_lists::may_stand(a, k, o, asked, at, s, p, q, n) {
                break 'lists Err(Fault::List(k));
            }
            m[(at.0 / 16) as usize] = u;
            p = c;
            q = s;
            n += 1;
            c = stack_link_at(a, d, at);
        }
        if !audit_lists::may_end(r, k, p, n) {
            break 'lists Err(Fault::List(k));
        }
        if !audit_lists::skips_ok(a, r, k, v) {
            break 'lists Err(Fault::List(k));
        }
        i = j + 1;
    }
}
