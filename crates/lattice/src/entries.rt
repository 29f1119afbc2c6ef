ghost use Rattle.std.specs.Prelude.{◌≡◌, ◌<◌, ◌≤◌, ◌++◌, length, nat_eq, IfOk, OnOk};
ghost use Rattle.std.specs.List.{take_while};
ghost use Rattle.mz_base.specs.Data.{hits_to, readings};
ghost use Rattle.conversion_meaning.specs.Entries.{char_entries, entries, entries_from, is_cut, run_entries, user_entries, word_entries};
ghost use Rattle.lattice.specs.Runs.{may_begin_run};

use crate::run::may_begin_run;
use crate::sources::{push_char, push_run, push_users, push_words};
use mz_base::{DataSet, Entry, Hit, MOST_KEY, NoMemory, UserWords};
use std::alloc::Global;

/// How many entries a begin usually has: there is room for so many at once.
const USUAL_ENTRIES: usize = 32;

/// The entries of a key, in their order.
#[tactic(auto, unfolding(conversion_meaning::specs::Entries::entries))]
pub(crate) fn entries_of<D: DataSet, U: UserWords>(
    alloc: Global,
    set: &D,
    user: &U,
    key: &[char],
    bounds: &[u16],
) -> Result<Vec<Entry>, NoMemory>
    requires { length key.now ≤ MOST_KEY }
    ensures { IfOk result (λ es. es.items ≡ entries (D.lists set.now) (U.rows user.now) key.now bounds.now) }
{
    let mut out = Vec::with_capacity(alloc, key.len() * USUAL_ENTRIES)?;
    for begin in 0..key.len() as u16 {
        push_from(alloc, set, user, key, bounds, begin, &mut out)?;
    }
    Ok(out)
}

/// Adds the entries that begin here, by rising end.
fn push_from<D: DataSet, U: UserWords>(
    alloc: Global,
    set: &D,
    user: &U,
    key: &[char],
    bounds: &[u16],
    begin: u16,
    out: &mut Vec<Entry>,
) -> Result<(), NoMemory>
    requires inside { begin < length key.now }
    requires short { length key.now ≤ MOST_KEY }
    ensures { OnOk result (out.new.items ≡ out.old.items ++ entries_from (D.lists set.now) (U.rows user.now) key.now bounds.now begin) }
{
    let hits = set.words_at(alloc, key, usize::from(begin))?;
    let mut left = hits.as_slice();
    let may_run = may_begin_run(key, begin);
    for end in begin + 1..key.len() as u16 + 1 {
        let (here, later) = left.split_at(count_at(left, end));
        left = later;
        if !is_cut(bounds, begin, end) {
            push_rows(set, user, key, here, begin, end, out)?;
            push_text(set, key, may_run, begin, end, out)?;
        }
    }
    Ok(())
}

/// How many hits of this end stand first.
fn count_at(hits: &[Hit], end: u16) -> usize
    ensures { result ≡ length (take_while (λ hit. nat_eq hit.end end) hits.now) }
{
    hits.iter().take_while(|hit| hit.end == end).count()
}

/// Whether a bound stands strictly inside the part.
fn is_cut(bounds: &[u16], begin: u16, end: u16) -> bool
    ensures { result ≡ is_cut bounds.now begin end }
{
    bounds.iter().any(|bound| begin < *bound && *bound < end)
}

/// Adds the entries of a part's rows, the user's first; the hits are its word rows.
fn push_rows<D: DataSet, U: UserWords>(
    set: &D,
    user: &U,
    key: &[char],
    hits: &[Hit],
    begin: u16,
    end: u16,
    out: &mut Vec<Entry>,
) -> Result<(), NoMemory>
    requires forward { begin < end }
    requires inside { end ≤ length key.now }
    requires hits { hits.now ≡ hits_to (readings (D.lists set.now)) key.now begin end }
    ensures { OnOk result (out.new.items ≡ out.old.items ++ (user_entries (D.lists set.now) (U.rows user.now) key.now begin end ++ word_entries (D.lists set.now) key.now begin end)) }
{
    push_users(set, user, key, begin, end, out)?;
    push_words(set, hits, begin, out)?;
    Ok(())
}

/// Adds the entries of a part's own text; `may_run` says whether a run may begin here.
fn push_text<D: DataSet>(
    set: &D,
    key: &[char],
    may_run: bool,
    begin: u16,
    end: u16,
    out: &mut Vec<Entry>,
) -> Result<(), NoMemory>
    requires forward { begin < end }
    requires inside { end ≤ length key.now }
    requires may_run { may_run ≡ may_begin_run key.now begin }
    ensures { OnOk result (out.new.items ≡ out.old.items ++ (char_entries (D.lists set.now) key.now begin end ++ run_entries (D.lists set.now) key.now begin end)) }
{
    push_char(set, key, begin, end, out)?;
    push_run(set, key, may_run, begin, end, out)
}
