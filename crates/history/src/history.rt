ghost use Rattle.std.specs.Prelude.{◌≡◌, [], IfOk, OnErr, OnOk};
ghost use Rattle.std.specs.NonZero.{non_zero_usize_get};
ghost use Rattle.session_meaning.specs.History.{learn, with_learned};
ghost use Rattle.session_meaning.specs.HistoryLaws.{IsHistory};
ghost use Rattle.session_meaning.specs.declared.history.TheConstants.{MOST_PAIRS};
ghost use Rattle.history.specs.Fronts.{FrontIsLearned};
ghost use Rattle.history.specs.Pairs.{pair_with};

use crate::kept::{Kept, kept_of, pair_of};
use lru::LruCache;
use mz_base::{NoMemory, Pair};
use session_meaning::MOST_PAIRS;
use std::alloc::Global;
use std::marker::Model;
use std::num::NonZeroUsize;

/// The pairs that a user has learned, the newest first. Seen as their list.
#[derive(Drop)]
pub struct History {
    kept: LruCache<Kept, ()>,
}

impl Model for History {
    ghost use Rattle.std.specs.Prelude.{◌≡◌, List};
    ghost use Rattle.mz_base.specs.declared.lattice.Pair.{Pair};
    ghost use Rattle.session_meaning.specs.declared.history.TheConstants.{MOST_PAIRS};
    ghost use Rattle.history.specs.Pairs.{pairs_of};

    ghost Value = { List Pair };

    ghost view = { λ h. pairs_of h.kept.entries };

    ghost invariant = { λ h. h.kept.cap ≡ MOST_PAIRS };
}

impl History {
    /// Nothing is learned yet.
    pub fn new(alloc: Global) -> Result<History, NoMemory>
        ensures { IfOk result (λ history. history ≡ []) }
    {
        Ok(History {
            kept: LruCache::sparse(alloc, most_pairs())?,
        })
    }

    /// The pair goes first. An equal one goes, and what is past the most. Costs a look-up.
    pub fn learn(&mut self, alloc: Global, key: &[char], value: &[char]) -> Result<(), NoMemory>
        ensures ok { OnOk result (self.new ≡ with_learned self.old (pair_with key.now value.now)) }
        ensures err { OnErr result (self.new ≡ self.old) }
    {
        // Both texts are made first: what refuses them leaves the cache alone.
        let kept = kept_of(alloc, key, value)?;
        let _held = self.kept.len();
        self.kept.put(kept, ())?;
        Ok(())
    }

    /// Learns pairs, from left to right.
    pub fn learn_all(&mut self, alloc: Global, pairs: &[Pair]) -> Result<(), NoMemory>
        ensures ok { OnOk result (self.new ≡ learn self.old pairs.now) }
        // Each pair is learned by itself, so those before the one that memory ran out at stay.
        ensures err { OnErr result (FrontIsLearned self.old pairs.now self.new) }
    {
        for pair in pairs {
            self.learn(alloc, pair.key.as_chars(), pair.value.as_chars())?;
        }
        Ok(())
    }

    /// The pairs, the newest first.
    pub fn pairs(&self, alloc: Global) -> Result<Vec<Pair>, NoMemory>
        ensures pairs { IfOk result (λ pairs. pairs.items ≡ self.now) }
        // Each once, and no more than may be.
        ensures history { IfOk result (λ pairs. IsHistory pairs.items) }
    {
        let mut pairs = Vec::with_capacity(alloc, self.kept.len())?;
        for (kept, _) in self.kept.iter() {
            pairs.push(pair_of(alloc, kept)?)?;
        }
        Ok(pairs)
    }

    /// The same pairs again, which learn by themselves from then on.
    pub fn copy(&self, alloc: Global) -> Result<History, NoMemory>
        ensures { IfOk result (λ copy. copy ≡ self.now) }
    {
        let _count = self.kept.len();
        let mut copy = History::new(alloc)?;
        for (kept, _) in self.kept.iter().rev() {
            copy.learn(alloc, kept.key.as_slice(), kept.value.as_slice())?;
        }
        Ok(copy)
    }
}

/// The most pairs, as a capacity.
fn most_pairs() -> NonZeroUsize
    ensures { non_zero_usize_get result ≡ MOST_PAIRS }
{
    match NonZeroUsize::new(MOST_PAIRS) {
        Some(most) => most,
        None => NonZeroUsize::MIN,
    }
}
