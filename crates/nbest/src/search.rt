ghost use Rattle.std.specs.Prelude.{◌≡◌, ◌<◌, ◌≤◌, ◌*◌, true, All, IfOk, IfSome, OnErr, OnOk, drop, length, map, slice_index_or};
ghost use Rattle.std.specs.Arc.{arc_value};
ghost use Rattle.std.specs.List.Sorted.{IsSorted};
ghost use Rattle.mz_base.specs.declared.lattice.TheConstants.{MOST_KEY};
ghost use Rattle.conversion_meaning.specs.Bounds.{IsWithin};
ghost use Rattle.conversion_meaning.specs.InOrder.{paths_in_order};
ghost use Rattle.conversion_meaning.specs.Lattices.{IsWellFormed};
ghost use Rattle.conversion_meaning.specs.Paths.{IsSpan};
ghost use Rattle.conversion_meaning.specs.Potentials.{AreLeastCosts};
ghost use Rattle.viterbi.specs.Table.{most_reached};
ghost use Rattle.nbest.specs.Searches.{AreThere, Gives, IsJoinOf, IsSearch, first_found, is_open, still_to_come};
ghost use Rattle.nbest.specs.Tails.{Ending, IsFamily, begun_by, family_of, no_ending, sibling_cmp};
ghost use Rattle.nbest.specs.Weights.{weight};

use crate::cache::Cache;
use crate::costs::Costs;
use crate::found::Found;
use crate::grow::begun_by_first;
use crate::join::{Join, begin_of, join_of};
use crate::queue::Queue;
use crate::tail::{Sibling, Tail};
use mz_base::{Certificate, DataSet, Entry, Lattice, NoMemory, Seq, Span};
use std::alloc::Global;
use std::marker::Model;
use std::sync::Arc;

/// A search for all paths over a span of a lattice, in order.
#[derive(Drop)]
pub struct NBest {
    alloc: Global,
    span: Span,
    costs: Costs,
    queue: Queue,
    cache: Cache,
}

impl Model for NBest {
    ghost use Rattle.nbest.specs.Searches.{Search};

    ghost Value = { Search };

    ghost view = { λ s. record { span = s.span; costs = s.costs; queue = s.queue; cache = s.cache } };
}

impl NBest {
    /// A search that has given no path. `solved` has the potentials of this span.
    pub fn new<D: DataSet>(
        alloc: Global,
        set: &D,
        lattice: &Lattice,
        span: &Span,
        solved: &Certificate,
    ) -> Result<NBest, NoMemory>
        requires well { IsWellFormed (D.lists set.now) lattice.now }
        requires span { IsSpan (D.lists set.now) lattice.now span.now }
        requires solved { AreLeastCosts (D.lists set.now) lattice.now.entries span.now solved.now.potentials }
        ensures search { IfOk result (λ s. IsSearch (D.lists set.now) lattice.now s) }
        ensures span { IfOk result (λ s. s.span ≡ span.now) }

        // All paths are still to come.
        ensures all { IfOk result (λ s. still_to_come (D.lists set.now) lattice.now.entries s ≡ paths_in_order (D.lists set.now) lattice.now.entries span.now) }
    {
        let entries = lattice.entries.as_slice();
        let costs = Costs::from_potentials(alloc, entries, span, solved.potentials.as_slice())?;
        let end = Join {
            begin: span.end,
            lid: span.right,
            rest: 0,
        };
        let mut cache = Cache::new(alloc, span)?;
        let siblings = cache.siblings_at(alloc, set, lattice, span, &costs, &end)?;
        let last = begun_by_first(alloc, None, end.rest, siblings)?;
        Ok(NBest {
            alloc,
            span: *span,
            costs,
            queue: Queue::of(alloc, last)?,
            cache,
        })
    }

    /// The next path, with its cost; none where all were given. `set` and `lattice` are those of `new`.
    pub fn next<D: DataSet>(
        &mut self,
        set: &D,
        lattice: &Lattice,
    ) -> Result<Option<Found>, NoMemory>
        requires well { IsWellFormed (D.lists set.now) lattice.now }
        requires search { IsSearch (D.lists set.now) lattice.now self.old }

        // It is the first of those that were still to come, and the rest remain.
        ensures found { IfOk result (λ found. found ≡ first_found (D.lists set.now) lattice.now.entries self.old.span (still_to_come (D.lists set.now) lattice.now.entries self.old)) }
        ensures rest { OnOk result (still_to_come (D.lists set.now) lattice.now.entries self.new ≡ drop 1 (still_to_come (D.lists set.now) lattice.now.entries self.old)) }

        // Without memory no path is lost.
        ensures err { OnErr result (still_to_come (D.lists set.now) lattice.now.entries self.new ≡ still_to_come (D.lists set.now) lattice.now.entries self.old) }

        // The search goes on in the same set and lattice.
        ensures search { IsSearch (D.lists set.now) lattice.now self.new }
        ensures span { self.new.span ≡ self.old.span }
    {
        let room = Vec::new(self.alloc);
        self.next_in(set, lattice, room)
    }

    /// The same, with a vector to put the path into. What it had is forgotten.
    pub fn next_in<D: DataSet>(
        &mut self,
        set: &D,
        lattice: &Lattice,
        room: Vec<u32>,
    ) -> Result<Option<Found>, NoMemory>
        requires well { IsWellFormed (D.lists set.now) lattice.now }
        requires search { IsSearch (D.lists set.now) lattice.now self.old }

        // It is the first of those that were still to come, and the rest remain.
        ensures found { IfOk result (λ found. found ≡ first_found (D.lists set.now) lattice.now.entries self.old.span (still_to_come (D.lists set.now) lattice.now.entries self.old)) }
        ensures rest { OnOk result (still_to_come (D.lists set.now) lattice.now.entries self.new ≡ drop 1 (still_to_come (D.lists set.now) lattice.now.entries self.old)) }

        // Without memory no path is lost.
        ensures err { OnErr result (still_to_come (D.lists set.now) lattice.now.entries self.new ≡ still_to_come (D.lists set.now) lattice.now.entries self.old) }

        // The search goes on in the same set and lattice.
        ensures search { IsSearch (D.lists set.now) lattice.now self.new }
        ensures span { self.new.span ≡ self.old.span }
    {
        while self.is_open(lattice.entries.as_slice()) {
            self.lengthen(set, lattice)?;
        }
        self.take(room)
    }

    /// Whether the first tail lacks entries.
    fn is_open(&self, entries: &[Entry]) -> bool
        requires { All (λ (e : Ending). AreThere entries.now e.ordinals) self.now.queue }
        ensures { result ≡ is_open entries.now self.now.span self.now.queue }
    {
        match self.queue.first() {
            Some(first) => begin_of(entries, &first.0) != self.span.begin,
            None => false,
        }
    }

    /// Puts the tails that are longer by one entry in the place of the first one: the first of them, with its siblings.
    fn lengthen<D: DataSet>(&mut self, set: &D, lattice: &Lattice) -> Result<(), NoMemory>
        requires well { IsWellFormed (D.lists set.now) lattice.now }
        requires search { IsSearch (D.lists set.now) lattice.now self.old }
        requires open { is_open lattice.now.entries self.old.span self.old.queue ≡ true }
        ensures search { IsSearch (D.lists set.now) lattice.now self.new }
        ensures same { still_to_come (D.lists set.now) lattice.now.entries self.new ≡ still_to_come (D.lists set.now) lattice.now.entries self.old }
        ensures span { self.new.span ≡ self.old.span }
        ensures less { OnOk result (weight lattice.now self.new.span self.new.queue < weight lattice.now self.old.span self.old.queue) }
    {
        let join = self.join_of_first(set, lattice);
        let siblings = self
            .cache
            .siblings_at(self.alloc, set, lattice, &self.span, &self.costs, &join)?;
        let longer = longer_than_first(self.alloc, &self.queue, join.rest, siblings)?;
        self.queue.replace_first(longer)
    }

    /// The join of the first tail.
    fn join_of_first<D: DataSet>(&self, set: &D, lattice: &Lattice) -> Join
        requires well { IsWellFormed (D.lists set.now) lattice.now }
        requires search { IsSearch (D.lists set.now) lattice.now self.now }
        requires some { 0 < length self.now.queue }
        ensures { IsJoinOf (D.lists set.now) lattice.now.entries self.now.span (slice_index_or self.now.queue 0 no_ending).ordinals result }
    {
        let Some(first) = self.queue.first() else {
            unreachable!();
        };
        join_of(lattice.entries.as_slice(), &self.costs, &first.0)
    }

    /// Takes the first tail as a path. Room is made before anything changes.
    fn take(&mut self, mut path: Vec<u32>) -> Result<Option<Found>, NoMemory>
        ensures ok { IfOk result (λ found. Gives self.old self.new found) }
        ensures err { OnErr result (self.new ≡ self.old) }
    {
        let Some(first) = self.queue.first() else {
            return Ok(None);
        };
        let Tail {
            estimate,
            ordinals,
            ..
        } = &first.0;
        let cost = *estimate;
        path.clear();
        ordinals.add_to(&mut path)?;
        self.queue.drop_first();
        Ok(Some(Found {
            path: Seq::from_vec(path),
            cost,
        }))
    }
}

/// The tails that are longer than the first one by each of these entries: the first of them, with its siblings.
fn longer_than_first(
    alloc: Global,
    queue: &Queue,
    rest: i64,
    siblings: Arc<Vec<Sibling>>,
) -> Result<Option<Tail>, NoMemory>
    requires some { 0 < length queue.now }
    requires few { length (slice_index_or queue.now 0 no_ending).ordinals ≤ MOST_KEY }
    requires order { IsSorted sibling_cmp (arc_value siblings).items }
    requires small { All (λ (s : Sibling). IsWithin (2 * most_reached) s.added) (arc_value siblings).items }
    requires rest { IsWithin most_reached rest }
    ensures family { IfOk result (λ longer. IfSome longer IsFamily) }
    ensures all { IfOk result (λ longer. family_of longer ≡ map (begun_by (slice_index_or queue.now 0 no_ending).ordinals rest) (arc_value siblings).items) }
{
    let Some(first) = queue.first() else {
        unreachable!();
    };
    begun_by_first(alloc, Some(&first.0.ordinals), rest, siblings)
}
