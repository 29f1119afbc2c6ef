ghost use Rattle.std.specs.Prelude.{◌≡◌, ℕ, ◌-◌, ◌<◌, ◌≤◌, pos, if◌then◌else◌, IfOk, length, slice_index_or};
ghost use Rattle.std.specs.List.{range_with_len};
ghost use Rattle.std.specs.List.Sorted.{IsNonDecreasingBy};
ghost use Rattle.conversion_meaning.specs.Lattices.{entry};
ghost use Rattle.conversion_meaning.specs.Potentials.{is_in};
ghost use Rattle.nbest.specs.Costs.{begins_at, by_ordinal};

use mz_base::{Entry, NoMemory, Span};
use std::alloc::Global;
use std::marker::Model;

/// The potentials of a span, each at its entry's ordinal; 0 for the entries that are not of the span. Only the part between
/// the span's first entry and its last one takes room.
#[derive(Drop)]
pub struct Costs {
    /// How many entries begin before the span.
    before: usize,
    costs: Vec<i64>,
    /// How many begin where it ends, or later.
    after: usize,
}

impl Model for Costs {
    ghost use Rattle.std.specs.Prelude.{ℤ, List};
    ghost use Rattle.nbest.specs.Costs.{padded};

    ghost Value = { List ℤ };

    ghost view = { λ c. padded c.before c.costs.items c.after };
}

impl Costs {
    /// The costs of a lattice's entries, which rise by begin.
    pub fn from_potentials(
        alloc: Global,
        entries: &[Entry],
        span: &Span,
        potentials: &[i64],
    ) -> Result<Costs, NoMemory>
        requires rising { IsNonDecreasingBy begins_at entries.now }
        requires ahead { (o : ℕ) → o < length entries.now → (entry entries.now o).begin < (entry entries.now o).end }
        requires span { span.now.begin ≤ span.now.end }
        ensures { IfOk result (λ costs. costs ≡ by_ordinal (λ o. is_in span.now (entry entries.now o)) (range_with_len 0 (length entries.now)) potentials.now 0) }
    {
        let before = entries.partition_point(|entry| entry.begin < span.begin);
        let end = entries.partition_point(|entry| entry.begin < span.end);
        let costs = costs_between(alloc, entries, span, potentials, before, end)?;
        Ok(Costs {
            before,
            costs,
            after: entries.len() - end,
        })
    }

    /// The cost at an ordinal.
    pub fn at(&self, ordinal: u32) -> i64
        ensures { result ≡ slice_index_or self.now ordinal (pos 0) }
    {
        let ordinal = ordinal as usize;
        if ordinal < self.before {
            return 0;
        }
        match self.costs.as_slice().get(ordinal - self.before) {
            Some(cost) => *cost,
            None => 0,
        }
    }
}

/// The costs of the entries from one ordinal up to another.
fn costs_between(
    alloc: Global,
    entries: &[Entry],
    span: &Span,
    potentials: &[i64],
    first: usize,
    end: usize,
) -> Result<Vec<i64>, NoMemory>
    requires { end ≤ length entries.now }
    ensures { IfOk result (λ costs. costs.items ≡ by_ordinal (λ o. is_in span.now (entry entries.now o)) (range_with_len first (end - first)) potentials.now 0) }
{
    let mut costs = Vec::with_capacity(alloc, end.saturating_sub(first))?;
    let mut next = 0;
    for o in first..end {
        let inside = is_in(span, &entries[o]);
        costs.push(cost_at(inside, potentials, next))?;
        next += usize::from(inside);
    }
    Ok(costs)
}

fn is_in(span: &Span, entry: &Entry) -> bool
    ensures { result ≡ is_in span.now entry.now }
{
    span.begin <= entry.begin && entry.end <= span.end
}

fn cost_at(inside: bool, potentials: &[i64], next: usize) -> i64
    ensures { result ≡ (if inside then slice_index_or potentials.now next (pos 0) else pos 0) }
{
    if !inside {
        return 0;
    }
    match potentials.get(next) {
        Some(cost) => *cost,
        None => 0,
    }
}
