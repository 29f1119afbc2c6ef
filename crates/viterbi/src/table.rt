ghost use Rattle.std.specs.Prelude.{◌≡◌, ℕ, ◌<◌, ◌≤◌, pos, true, false, AllPairs, List, Option, Some, length, map, reverse, IfOk, IfSome};
ghost use Rattle.mz_base.specs.Data.{IsCost};
ghost use Rattle.conversion_meaning.specs.Bounds.{IsWithin};
ghost use Rattle.conversion_meaning.specs.Lattices.{AreInOrder, IsWellFormed, entry};
ghost use Rattle.conversion_meaning.specs.Paths.{IsSpan};
ghost use Rattle.conversion_meaning.specs.Potentials.{is_in, ordinals_in};
ghost use Rattle.viterbi.specs.Arrivals.{AreSound, IsReachedBy, target_of};
ghost use Rattle.viterbi.specs.Table.{IsReached, IsTrail, IsWholeTable, most_reached, no_reached, reached};

use crate::arrivals::{Arrival, arrivals_at_begin, arrivals_at_end, arrivals_from, reach};
use crate::rows::Rows;
use lattice::first_beginning_at;
use mz_base::{DataSet, Entry, Lattice, NoMemory, Span};
use std::alloc::Global;

/// How an entry is reached at the least cost.
#[derive(Clone, Copy)]
pub struct Reached {
    /// The cost up to the entry's end.
    pub cost: i64,
    /// The ordinal of the entry before it, none at the span's begin.
    pub before: Option<u32>,
}

/// A row that says nothing.
pub fn not_reached() -> Reached
    ensures { result ≡ no_reached }
{
    Reached {
        cost: 0,
        before: None,
    }
}

/// What is to be reached: an entry, or the end of a span.
#[derive(Clone, Copy)]
pub struct Target {
    pub begin: u16,
    pub lid: u16,
    pub cost: i32,
}

/// The table of the entries that begin before the span ends. Those that are not of the span have rows that say nothing.
pub fn table_of<D: DataSet>(
    alloc: Global,
    set: &D,
    lattice: &Lattice,
    span: &Span,
) -> Result<Rows, NoMemory>
    requires well { IsWellFormed (D.lists set.now) lattice.now }
    requires span { IsSpan (D.lists set.now) lattice.now span.now }
    ensures { IfOk result (λ table. IsWholeTable (D.lists set.now) lattice.now.entries span.now table) }
{
    let entries = lattice.entries.as_slice();
    let by_end = lattice.by_end.as_slice();
    let first = first_beginning_at(entries, span.begin);
    let end = first_beginning_at(entries, span.end);
    let mut table = Rows::new(alloc, first, end.saturating_sub(first))?;
    let mut here = arrivals_at_begin(alloc, entries, by_end, span);
    for o in first..end {
        let next = &entries[o];
        here = arrivals_from(entries, by_end, &table, span, here, next.begin)?;
        table.push(&row_of(set, span, here.list.as_slice(), next))?;
    }
    Ok(table)
}

/// The row of the entry that comes next, by the arrivals at its begin.
fn row_of<D: DataSet>(set: &D, span: &Span, arrivals: &[Arrival], next: &Entry) -> Reached
    requires sound { AreSound (D.lists set.now) arrivals.now }
    requires left { span.now.left < (D.lists set.now).ids }
    requires next { next.now.lid < (D.lists set.now).ids }
    requires cost { IsCost next.now.cost }
    ensures inside { is_in span.now next.now ≡ true → IsReachedBy (D.lists set.now) span.now arrivals.now (target_of next.now) result }
    ensures outside { is_in span.now next.now ≡ false → result ≡ no_reached }
{
    if !is_in(span, next) {
        return not_reached();
    }
    let target = Target {
        begin: next.begin,
        lid: next.lid,
        cost: next.cost,
    };
    reach(set, arrivals, span, &target)
}

/// The end of the span, reached from a whole table.
pub fn reach_end<D: DataSet>(
    alloc: Global,
    set: &D,
    lattice: &Lattice,
    span: &Span,
    table: &Rows,
) -> Result<Reached, NoMemory>
    requires well { IsWellFormed (D.lists set.now) lattice.now }
    requires span { IsSpan (D.lists set.now) lattice.now span.now }
    requires table { IsWholeTable (D.lists set.now) lattice.now.entries span.now table.now }
    ensures { IfOk result (λ r. IsReached (D.lists set.now) lattice.now.entries span.now table.now span.now.end span.now.right (pos 0) r) }
{
    let entries = lattice.entries.as_slice();
    let by_end = lattice.by_end.as_slice();
    let there = arrivals_at_end(alloc, entries, by_end, table, span)?;
    let end = Target {
        begin: span.end,
        lid: span.right,
        cost: 0,
    };
    Ok(reach(set, there.list.as_slice(), span, &end))
}

fn is_in(span: &Span, entry: &Entry) -> bool
    ensures { result ≡ is_in span.now entry.now }
{
    span.begin <= entry.begin && entry.end <= span.end
}

/// The ordinals over which the table leads to this one, from the first to the last.
pub fn trail(alloc: Global, table: &Rows, last: Option<u32>) -> Result<Vec<u32>, NoMemory>
    requires falls { (o before : ℕ) → o < length table.now → (reached table.now o).before ≡ Some before → before < o }
    requires last { IfSome last (λ o. o < length table.now) }
    ensures { IfOk result (λ path. (back : List ℕ) × IsTrail table.now last back × (path.items ≡ reverse back)) }
{
    let mut path = Vec::new(alloc);
    let mut at = last;
    while let Some(ordinal) = at {
        path.push(ordinal)?;
        at = table.at(ordinal as usize).before;
    }
    Ok(reversed(path))
}

fn reversed(mut path: Vec<u32>) -> Vec<u32>
    ensures { result.items ≡ reverse path.items }
{
    path.as_mut_slice().reverse();
    path
}

/// The costs of the entries of the span, by rising ordinal.
pub fn potentials(
    alloc: Global,
    entries: &[Entry],
    table: &Rows,
    span: &Span,
) -> Result<Vec<i64>, NoMemory>
    requires rising { AllPairs AreInOrder entries.now }
    requires ahead { (o : ℕ) → o < length entries.now → (entry entries.now o).begin < (entry entries.now o).end }
    requires span { span.now.begin ≤ span.now.end }
    requires small { (o : ℕ) → o < length table.now → IsWithin most_reached (reached table.now o).cost }
    ensures { IfOk result (λ costs. costs.items ≡ map (λ o. (reached table.now o).cost) (ordinals_in entries.now span.now)) }
{
    let first = first_beginning_at(entries, span.begin);
    let end = first_beginning_at(entries, span.end);
    let mut costs = Vec::with_capacity(alloc, end.saturating_sub(first))?;
    for o in first..end {
        if is_in(span, &entries[o]) {
            costs.push(table.at(o).cost)?;
        }
    }
    Ok(costs)
}
