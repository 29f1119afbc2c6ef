ghost use Rattle.std.specs.Prelude.{◌≡◌, ℕ, ◌<◌, ◌==◌, ◌&&◌, pos, Option, None, Some, All, IfOk, IfSome, length, slice_index_or, slice_set};
ghost use Rattle.std.specs.Arc.{arc_value};
ghost use Rattle.conversion_meaning.specs.Bounds.{IsWithin};
ghost use Rattle.conversion_meaning.specs.Lattices.{IsWellFormed};
ghost use Rattle.viterbi.specs.Table.{most_reached};
ghost use Rattle.nbest.specs.Lists.{Listed, Stands};
ghost use Rattle.nbest.specs.Searches.{AreKept, AreSiblings};

use crate::costs::Costs;
use crate::grow::sorted_siblings;
use crate::join::Join;
use crate::tail::Sibling;
use mz_base::{DataSet, Lattice, NoMemory, Span};
use std::alloc::Global;
use std::marker::Model;
use std::sync::Arc;

/// How many slots a cache has for each position of its span.
const SLOTS: usize = 64;

/// The entries that end at a position, by what they add before a left id.
#[derive(Drop)]
pub struct Cached {
    begin: u16,
    lid: u16,
    siblings: Arc<Vec<Sibling>>,
}

impl Model for Cached {
    ghost use Rattle.std.specs.Arc.{arc_value};
    ghost use Rattle.nbest.specs.Lists.{Listed};

    ghost Value = { Listed };

    ghost view = { λ c. record { begin = c.begin; lid = c.lid; siblings = (arc_value c.siblings).items } };
}

impl Cached {
    fn is_for(&self, join: &Join) -> bool
        ensures { result ≡ (self.now.begin == join.now.begin && self.now.lid == join.now.lid) }
    {
        self.begin == join.begin && self.lid == join.lid
    }

    fn siblings(&self) -> Result<Arc<Vec<Sibling>>, NoMemory>
        ensures { IfOk result (λ siblings. (arc_value siblings).items ≡ self.now.siblings) }
    {
        Ok(Arc::try_clone(&self.siblings)?)
    }
}

/// The entries that were sorted already, shared by all tails that begin at one position with one left id. Where two such
/// pairs have one slot, the later takes it.
#[derive(Drop)]
pub struct Cache {
    slots: Vec<Option<Cached>>,
}

impl Model for Cache {
    ghost use Rattle.std.specs.Prelude.{List, Option};
    ghost use Rattle.nbest.specs.Lists.{Listed};

    ghost Value = { List (Option Listed) };

    ghost view = { λ c. c.slots.items };
}

impl Cache {
    /// A cache with nothing in it, with slots for the positions of a span.
    pub fn new(alloc: Global, span: &Span) -> Result<Cache, NoMemory>
        ensures { IfOk result (λ cache. All (λ (kept : Option Listed). kept ≡ None) cache) }
    {
        let count = usize::from(span.end.saturating_sub(span.begin)) * SLOTS;
        let mut slots = Vec::with_capacity(alloc, count)?;
        for _slot in 0..count {
            slots.push(None)?;
        }
        Ok(Cache { slots })
    }

    /// The entries that a tail can be longer by at a join, by what they add, then by ordinal. They are sorted where they
    /// are not kept. Room is made before anything changes.
    pub fn siblings_at<D: DataSet>(
        &mut self,
        alloc: Global,
        set: &D,
        lattice: &Lattice,
        span: &Span,
        costs: &Costs,
        join: &Join,
    ) -> Result<Arc<Vec<Sibling>>, NoMemory>
        requires well { IsWellFormed (D.lists set.now) lattice.now }
        requires count { length costs.now ≡ length lattice.now.entries }
        requires small { (o : ℕ) → o < length costs.now → IsWithin most_reached (slice_index_or costs.now o (pos 0)) }
        requires lid { join.now.lid < (D.lists set.now).ids }
        requires kept { AreKept (D.lists set.now) lattice.now span.now costs.now self.old }
        ensures siblings { IfOk result (λ siblings. AreSiblings (D.lists set.now) lattice.now span.now costs.now join.now.begin join.now.lid (arc_value siblings).items) }
        ensures kept { AreKept (D.lists set.now) lattice.now span.now costs.now self.new }
    {
        let slot = slot_of(span, join);
        if let Some(siblings) = self.found(slot, join)? {
            return Ok(siblings);
        }
        let sorted = sorted_siblings(alloc, set, lattice, span, costs, join)?;
        let siblings = Arc::new(alloc, sorted)?;
        let shared = Arc::try_clone(&siblings)?;
        self.keep(slot, join, shared);
        Ok(siblings)
    }

    /// What a slot keeps, where it is for this join.
    fn found(&self, slot: usize, join: &Join) -> Result<Option<Arc<Vec<Sibling>>>, NoMemory>
        ensures { IfOk result (λ found. IfSome found (λ siblings. Stands self.now join.now.begin join.now.lid (arc_value siblings).items)) }
    {
        let Some(Some(kept)) = self.slots.as_slice().get(slot) else {
            return Ok(None);
        };
        if !kept.is_for(join) {
            return Ok(None);
        }
        Ok(Some(kept.siblings()?))
    }

    /// Keeps entries in a slot, where there is such a slot.
    fn keep(&mut self, slot: usize, join: &Join, siblings: Arc<Vec<Sibling>>)
        ensures { self.new ≡ slice_set self.old slot (Some (record { begin = join.now.begin; lid = join.now.lid; siblings = (arc_value siblings).items })) }
    {
        if slot < self.slots.len() {
            self.slots[slot] = Some(Cached {
                begin: join.begin,
                lid: join.lid,
                siblings,
            });
        }
    }
}

/// The slot in which entries are looked for: a guess, which the slot's own position and left id tell right or wrong.
fn slot_of(span: &Span, join: &Join) -> usize {
    let position = usize::from(span.end.saturating_sub(join.begin));
    position * SLOTS + usize::from(join.lid) % SLOTS
}
