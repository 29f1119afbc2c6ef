ghost use Rattle.std.specs.Prelude.{◌≡◌, ℕ, ◌<◌, ◌≤◌, ◌==◌, ◌*◌, pos, ◌+ℤ◌, All, IfOk, IfSome, filter, length, map, slice_index_or};
ghost use Rattle.std.specs.Arc.{arc_value};
ghost use Rattle.std.specs.List.Sorted.{IsNonDecreasingBy, IsSorted};
ghost use Rattle.mz_base.specs.Data.{connection};
ghost use Rattle.mz_base.specs.declared.lattice.TheConstants.{MOST_KEY};
ghost use Rattle.conversion_meaning.specs.Bounds.{IsWithin};
ghost use Rattle.conversion_meaning.specs.Lattices.{IsWellFormed, entry};
ghost use Rattle.viterbi.specs.Table.{most_reached};
ghost use Rattle.nbest.specs.Chains.{ordinals_of};
ghost use Rattle.nbest.specs.Searches.{AreSiblings, end_of, sibling, siblings};
ghost use Rattle.nbest.specs.Tails.{IsFamily, begun_by, family_of, sibling_cmp};

use crate::chain::Chain;
use crate::costs::Costs;
use crate::join::Join;
use crate::tail::{Sibling, Tail};
use mz_base::{DataSet, Entry, Lattice, NoMemory, Span};
use std::alloc::Global;
use std::sync::Arc;

/// A tail that is longer by the first of these siblings, with the others behind it; none where there are none. `rest` is
/// what it costs without what its first entry adds.
pub fn begun_by_first(
    alloc: Global,
    tail: Option<&Chain>,
    rest: i64,
    siblings: Arc<Vec<Sibling>>,
) -> Result<Option<Tail>, NoMemory>
    requires order { IsSorted sibling_cmp (arc_value siblings).items }
    requires small { All (λ (s : Sibling). IsWithin (2 * most_reached) s.added) (arc_value siblings).items }
    requires rest { IsWithin most_reached rest }
    requires few { length (ordinals_of tail) ≤ MOST_KEY }
    ensures family { IfOk result (λ longer. IfSome longer IsFamily) }
    ensures all { IfOk result (λ longer. family_of longer ≡ map (begun_by (ordinals_of tail.entry) rest) (arc_value siblings).items) }
{
    let Some(first) = siblings.as_slice().first() else {
        return Ok(None);
    };
    let Sibling { added, ordinal } = *first;
    let ordinals = Chain::begun_by(alloc, ordinal, tail)?;
    Ok(Some(Tail {
        estimate: added + rest,
        ordinals,
        siblings,
        next: 1,
        rest,
    }))
}

/// The entries that a tail can be longer by at a join, by what they add, then by ordinal.
pub fn sorted_siblings<D: DataSet>(
    alloc: Global,
    set: &D,
    lattice: &Lattice,
    span: &Span,
    costs: &Costs,
    join: &Join,
) -> Result<Vec<Sibling>, NoMemory>
    requires well { IsWellFormed (D.lists set.now) lattice.now }
    requires count { length costs.now ≡ length lattice.now.entries }
    requires small { (o : ℕ) → o < length costs.now → IsWithin most_reached (slice_index_or costs.now o (pos 0)) }
    requires lid { join.now.lid < (D.lists set.now).ids }
    ensures { IfOk result (λ sorted. AreSiblings (D.lists set.now) lattice.now span.now costs.now join.now.begin join.now.lid sorted.items) }
{
    let mut siblings = siblings(alloc, set, lattice, span, costs, join)?;
    siblings.sort_unstable();
    Ok(siblings)
}

/// The same entries, in no order.
fn siblings<D: DataSet>(
    alloc: Global,
    set: &D,
    lattice: &Lattice,
    span: &Span,
    costs: &Costs,
    join: &Join,
) -> Result<Vec<Sibling>, NoMemory>
    requires well { IsWellFormed (D.lists set.now) lattice.now }
    requires count { length costs.now ≡ length lattice.now.entries }
    requires small { (o : ℕ) → o < length costs.now → IsWithin most_reached (slice_index_or costs.now o (pos 0)) }
    requires lid { join.now.lid < (D.lists set.now).ids }
    ensures all { IfOk result (λ made. made.items ≡ siblings (D.lists set.now) lattice.now span.now costs.now join.now.begin join.now.lid) }
    ensures small { IfOk result (λ made. All (λ (s : Sibling). IsWithin (2 * most_reached) s.added) made.items) }
{
    let entries = lattice.entries.as_slice();
    let ending = ending_at(entries, lattice.by_end.as_slice(), join.begin);
    let mut siblings = Vec::with_capacity(alloc, ending.len())?;
    for ordinal in ending {
        if span.begin <= entries[*ordinal as usize].begin {
            siblings.push(sibling(set, entries, costs, join.lid, *ordinal))?;
        }
    }
    Ok(siblings)
}

/// The ordinals of the entries that end at a position: they stand together in the order of ends.
fn ending_at<'a>(entries: &[Entry], by_end: &'a [u32], position: u16) -> &'a [u32]
    requires { IsNonDecreasingBy (end_of entries.now) by_end.now }
    ensures { result.now ≡ filter (λ o. end_of entries.now o == position) by_end.now }
{
    let before = by_end.partition_point(|ordinal| end_of(entries, *ordinal) < position);
    let (_, rest) = by_end.split_at(before);
    let count = rest.partition_point(|ordinal| end_of(entries, *ordinal) <= position);
    let (ending, _) = rest.split_at(count);
    ending
}

fn end_of(entries: &[Entry], ordinal: u32) -> u16
    ensures { result ≡ end_of entries.now ordinal }
{
    match entries.get(ordinal as usize) {
        Some(entry) => entry.end,
        None => 0,
    }
}

/// An entry that a tail can be longer by.
fn sibling<D: DataSet>(set: &D, entries: &[Entry], costs: &Costs, lid: u16, ordinal: u32) -> Sibling
    requires inside { ordinal < length entries.now }
    requires count { length costs.now ≡ length entries.now }
    requires rid { (entry entries.now ordinal).rid < (D.lists set.now).ids }
    requires lid { lid < (D.lists set.now).ids }
    requires cost { IsWithin most_reached (slice_index_or costs.now ordinal (pos 0)) }
    ensures is { result ≡ sibling (D.lists set.now) entries.now costs.now lid ordinal }
    ensures small { IsWithin (2 * most_reached) result.added }
{
    let connection = set.conn(entries[ordinal as usize].rid, lid);
    Sibling {
        added: added(costs.at(ordinal), connection),
        ordinal,
    }
}

fn added(cost: i64, connection: i32) -> i64
    requires { IsWithin most_reached cost }
    ensures { result ≡ cost +ℤ connection }
{
    cost + i64::from(connection)
}
