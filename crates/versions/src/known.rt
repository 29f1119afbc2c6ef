//! What one thread knows of a registry's history.
ghost use Rattle.std.specs.Prelude.{◌≡◌, ◌+◌, ◌<◌, ◌≤◌, [], ◌∷◌, length, MatchBool};
ghost use Rattle.std.specs.Arc.{arc_value};
ghost use Rattle.versions.specs.Books.{head_of};
ghost use Rattle.versions.specs.Histories.{after_operation, Begins, IsPlace, started};

use crate::history::Version;
use logbook::{Gain, Offer, Opening, Plain, Play, Rule, Seen, Start, Word};
use std::marker::Model;
use std::sync::Arc;

/// The rule of the book.
pub struct Law;

impl<T, E> Rule<Version<T, E>, u64> for Law {
    ghost use Rattle.std.specs.Prelude.{[]};
    ghost use base.Fml.{ftrue};
    ghost use Rattle.versions.specs.Books.{IsKept};

    ghost holds = { λ cells log. IsKept cells log };

    ghost first = { [] };

    ghost hinted = { λ n log. Unit {0} };

    ghost shows = { λ log. [] };

    ghost keeps = { λ names log. ftrue };

    ghost moves = { λ ask before after answer. Unit {0} };
}

/// Callers trade nothing.
pub struct Nothing;

impl<T, E> Gain<Version<T, E>, u64> for Nothing {
    ghost use base.Fml.{ftrue};

    ghost after = { λ names about answer. ftrue };
}

/// A book opens with the start value alone.
pub struct Begin;

impl<T, E> Opening<Arc<T>, Version<T, E>> for Begin {
    ghost use Rattle.std.specs.Prelude.{[], ◌∷◌};
    ghost use Rattle.std.specs.Arc.{arc_value};
    ghost use Rattle.versions.specs.Histories.{started};

    ghost log = { λ count start. started (arc_value start) ∷ [] };
}

/// A step that adds a version.
pub struct Add;

impl<T, E> Play<Version<T, E>, u64> for Add {
    ghost use Rattle.versions.specs.Books.{Adds};

    ghost then = { Adds };
}

/// What an operation installs, on its way into the history.
#[derive(Drop)]
pub struct Draft<'a, T, E> {
    pub value: &'a Arc<T>,
    pub entry: &'a E,
}

impl<'a, T, E> Plain<Draft<'a, T, E>, Version<T, E>, u64> for Add {
    ghost use Rattle.std.specs.Prelude.{None};
    ghost use Rattle.std.specs.Arc.{arc_value};
    ghost use Rattle.versions.specs.Histories.{installed};

    ghost ask = { λ draft. installed (arc_value draft.value.now) draft.entry.now };

    ghost state = { λ draft. None };
}

/// The one word that a registry's book tracks: how many operations its history has. The publisher has it.
pub type Head<T, E> = Word<Version<T, E>, u64, Law>;

/// A prefix of a registry's history, which the book has reached. Contracts see it as that prefix.
#[derive(Drop)]
pub struct Known<T, E> {
    place: u64,
    seen: Seen<Version<T, E>, u64, Law>,
}

impl<T, E> Model for Known<T, E> {
    ghost use Rattle.versions.specs.Histories.{Prefix, prefix_code};

    ghost Value = { Prefix T E };

    ghost coded = { prefix_code T.code E.code };

    ghost use Rattle.versions.specs.Histories.{IsPlace};

    ghost view = { λ k. record { registry = k.seen.book; log = k.seen.log } };

    ghost invariant = { λ k. IsPlace k.place k.seen.log };
}

impl<T, E> Known<T, E> {
    /// A new registry's history, which is its start value alone.
    pub fn open(start: &Arc<T>) -> (Known<T, E>, Head<T, E>)
        ensures log { result.0.log ≡ started (arc_value start.now) ∷ [] }
        ensures head { result.1 ≡ head_of result.0.registry }
    {
        let (seen, mut pens) = Seen::open_row::<Arc<T>, Begin>(start, Start::alone(), 1);
        let head = Word::tracked(0, &mut pens.take());
        (Known { place: 0, seen }, head)
    }

    /// The number of its operations.
    pub fn place(&self) -> u64
        ensures { IsPlace result self.now.log }
    {
        self.place
    }

    /// A copy.
    pub fn again(&self) -> Known<T, E>
        ensures { result ≡ self.now }
    {
        Known {
            place: self.place,
            seen: self.seen.again(),
        }
    }

    /// Whether it has more operations than another prefix of the same history. Either way the shorter begins the longer.
    pub fn is_longer_than(&self, other: &Known<T, E>) -> bool
        requires { other.now.registry ≡ self.now.registry }
        ensures { MatchBool result
            ((length other.now.log < length self.now.log) × Begins other.now self.now)
            ((length self.now.log ≤ length other.now.log) × Begins self.now other.now) }
    {
        let mut both = self.seen.again();
        both.learn(&other.seen);
        other.place < self.place
    }

    /// Adds an operation to the history, of which it knows the whole, and says whether it did. At `false` nothing
    /// changed.
    pub fn add(&mut self, head: &Head<T, E>, value: &Arc<T>, entry: &E) -> bool
        requires { head.now ≡ head_of self.old.registry }
        ensures { MatchBool result
            (self.new ≡ after_operation self.old (arc_value value.now) entry.now)
            (self.new ≡ self.old) }
    {
        let place = self.place;
        let Some(next) = place.checked_add(1) else {
            return false;
        };
        let mut seen = self.seen.again();
        let mut offer: Offer<Version<T, E>, u64, Law, Nothing> = seen.plain::<
            Nothing,
            Draft<T, E>,
            Add,
        >(&Draft { value, entry });
        let mut pen = seen.no_pen();
        let found = head.compare_exchange::<Add, Nothing>(
            place, next, &mut seen, &mut offer, &mut pen,
        );
        if found != place {
            return false;
        }
        self.place = next;
        self.seen = seen;
        true
    }
}
