ghost use Rattle.std.specs.Prelude.{◌≡◌, ◌≤◌, ◌++◌, [], ◌∷◌, IfOk, OnOk, Some, length, nat_eq, refl, reverse};
ghost use Rattle.std.specs.Cmp.{partial_equiv_from_equiv};
ghost use Rattle.std.specs.Cmp.Lexicographic.{nat_list_cmp_total, nat_list_eq_equiv, pointwise, slice_cmp, texts_po, texts_ties};
ghost use Rattle.std.specs.Ordering.{nat_cmp};
ghost use Rattle.mz_base.specs.declared.lattice.TheConstants.{MOST_KEY};
ghost use Rattle.nbest.specs.Chains.{ordinals_of};
ghost use Rattle.nbest.specs.Searches.{first_of};
ghost use Rattle.nbest.specs.Tails.{but_first};

use mz_base::NoMemory;
use std::alloc::Global;
use std::cmp::Ordering;
use std::marker::Model;
use std::sync::Arc;

/// The ordinals of the last entries of a path. Those after the first entry are shared with all chains that go on from there.
#[derive(Drop)]
pub struct Chain {
    first: u32,
    after: Option<Arc<Chain>>,
    len: usize,
}

impl Model for Chain {
    ghost use Rattle.std.specs.Prelude.{◌≡◌, ℕ, ◌+◌, List, [], ◌∷◌, ◌++◌, length};
    ghost use Rattle.std.proofs.Common.{arith, length-append};
    ghost use Rattle.nbest.specs.Chains.{ordinals_after};

    ghost Value = { List ℕ };

    ghost view = { λ c. ordinals_after c.after ++ c.first ∷ [] };

    ghost invariant = { λ c. c.len ≡ length (ordinals_after c.after) + 1 };

    ghost size = { length };

    ghost size_decreases = { λ a h. Prim.grind (arith, length-append) };
}

impl Chain {
    /// A chain that is longer than another by this first entry.
    pub fn begun_by(alloc: Global, ordinal: u32, after: Option<&Chain>) -> Result<Chain, NoMemory>
        requires few { length (ordinals_of after) ≤ MOST_KEY }
        ensures { IfOk result (λ chain. chain ≡ ordinals_of after.entry ++ ordinal ∷ []) }
    {
        let Some(after) = after else {
            return Ok(Chain {
                first: ordinal,
                after: None,
                len: 1,
            });
        };
        let len = after.len + 1;
        let shared = Arc::new(alloc, after.share()?)?;
        Ok(Chain {
            first: ordinal,
            after: Some(shared),
            len,
        })
    }

    /// The same chain, with the entries after its first one shared.
    fn share(&self) -> Result<Chain, NoMemory>
        ensures { IfOk result (λ chain. chain ≡ self.now) }
    {
        let after = match &self.after {
            Some(after) => Some(Arc::try_clone(after)?),
            None => None,
        };
        Ok(Chain {
            first: self.first,
            after,
            len: self.len,
        })
    }

    /// The first entry.
    pub fn first(&self) -> u32
        ensures { result ≡ first_of self.now }
    {
        self.first
    }

    /// Puts another entry in the place of the first one.
    pub fn set_first(&mut self, ordinal: u32)
        ensures { self.new ≡ but_first self.old ++ ordinal ∷ [] }
    {
        self.first = ordinal;
    }

    /// Adds the entries to a path, from the first to the last.
    pub fn add_to(&self, path: &mut Vec<u32>) -> Result<(), NoMemory>
        ensures { OnOk result (path.new.items ≡ path.old.items ++ reverse self.now) }
    {
        path.push(self.first)?;
        match &self.after {
            Some(after) => after.add_to(path),
            None => Ok(()),
        }
    }

    /// By the ordinals from the last entry on. Where one has all of the other and more, it is the greater one.
    fn compare(&self, other: &Chain) -> Ordering
        ensures { result ≡ slice_cmp nat_cmp self.now other.now }
    {
        if self.len < other.len {
            return match &other.after {
                Some(after) => self.compare(after).then(Ordering::Less),
                None => unreachable!(),
            };
        }
        if other.len < self.len {
            return match &self.after {
                Some(after) => after.compare(other).then(Ordering::Greater),
                None => unreachable!(),
            };
        }
        match (&self.after, &other.after) {
            (Some(mine), Some(theirs)) => mine.compare(theirs).then(self.first.cmp(&other.first)),
            _ => self.first.cmp(&other.first),
        }
    }
}

impl PartialEq for Chain {
    ghost eq = { pointwise nat_eq };

    ghost laws = { partial_equiv_from_equiv nat_list_eq_equiv };

    fn eq(&self, other: &Chain) -> bool {
        self.compare(other).is_eq()
    }
}

impl Eq for Chain {
    ghost laws = { nat_list_eq_equiv };
}

impl PartialOrd for Chain {
    ghost partial_cmp = { λ x y. Some (slice_cmp nat_cmp x y) };

    ghost laws = { texts_po };

    fn partial_cmp(&self, other: &Chain) -> Option<Ordering> {
        Some(self.compare(other))
    }
}

impl Ord for Chain {
    ghost cmp = { slice_cmp nat_cmp };

    ghost total = { nat_list_cmp_total };

    ghost matches_partial_cmp = { λ x y. refl };

    ghost matches_eq = { texts_ties };

    fn cmp(&self, other: &Chain) -> Ordering {
        self.compare(other)
    }
}
