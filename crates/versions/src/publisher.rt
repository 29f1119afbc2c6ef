ghost use Rattle.std.specs.Prelude.{◌≡◌, [], ◌∷◌, length, vec_len, IfOk, OnOk, IfErr, OnErr};
ghost use Rattle.std.specs.Arc.{arc_value};
ghost use Rattle.versions.specs.Books.{head_of};
ghost use Rattle.versions.specs.Histories.{after_operation, entries_of, started, Begins, IsPlace};

use crate::known::{Head, Known};
use crate::receipt::Receipt;
use crate::shown::{OneHistory, Shown};
use crate::writer::{Copies, show};
use crossbeam_utils::rule::Protocol;
use left_right::Absorb;
use mz_base::NoMemory;
use std::alloc::Global;
use std::marker::Model;
use std::mem::ManuallyDrop;
use std::sync::{Arc, Wait};

/// Changes a registry's value. Contracts see the whole history. One that is dropped leaks the two copies of what was
/// shown, since giving them back waits: end it by [`Publisher::into_entries`].
pub struct Publisher<T: Drop, E: Drop>
where
    Shown<T, E>: Absorb<Shown<T, E>, State = Known<T, E>>,
    OneHistory: Protocol<Shown<T, E>, Option<Known<T, E>>>,
{
    // Always there, but while a publish has them.
    copies: Option<Copies<T, E>>,
    head: Head<T, E>,
    newest: Shown<T, E>,
    entries: Vec<E>,
}

impl<T: Drop, E: Drop> Drop for Publisher<T, E>
where
    Shown<T, E>: Absorb<Shown<T, E>, State = Known<T, E>>,
    OneHistory: Protocol<Shown<T, E>, Option<Known<T, E>>>,
{
    fn drop(self) {
        let Self {
            copies,
            head: _,
            newest: _,
            entries: _,
        } = self;
        if let Some(copies) = copies {
            let _ = unsafe { ManuallyDrop::new_unchecked(copies) };
        }
    }
}

impl<T: Drop, E: Drop> Model for Publisher<T, E>
where
    Shown<T, E>: Absorb<Shown<T, E>, State = Known<T, E>>,
    OneHistory: Protocol<Shown<T, E>, Option<Known<T, E>>>,
{
    ghost use Rattle.versions.specs.Histories.{Prefix, prefix_code};

    ghost Value = { Prefix T E };

    ghost coded = { prefix_code T.code E.code };

    ghost use Rattle.std.specs.Prelude.{IfSome};
    ghost use Rattle.versions.specs.Books.{Keeps};
    ghost use Rattle.versions.specs.Histories.{Begins};

    ghost view = { λ p. p.newest.known };

    ghost invariant = { λ p. Keeps p.newest.known p.head p.entries.items × IfSome p.copies (λ copies. Begins copies.desk.shown.value.known p.newest.known) };
}

impl<T: Drop, E: Drop> Publisher<T, E> {
    pub(crate) fn new(
        alloc: Global,
        copies: Copies<T, E>,
        head: Head<T, E>,
        start: Shown<T, E>,
    ) -> Publisher<T, E>
        requires head { head ≡ head_of start.known.registry }
        requires alone { start.known.log ≡ started (arc_value start.value) ∷ [] }
        requires begins { Begins copies.desk.shown.value.known start.known }
        ensures { result ≡ start.known }
    {
        Publisher {
            copies: Some(copies),
            head,
            newest: start,
            entries: Vec::new(alloc),
        }
    }

    /// Adds an operation to the history, and shows its value. It waits for readers that are taking meanwhile.
    pub fn publish<R: Wait>(
        &mut self,
        rt: &R,
        value: Arc<T>,
        entry: E,
    ) -> Result<Receipt<T, E>, (Arc<T>, E, NoMemory)>
        ensures ok { OnOk result (self.new ≡ after_operation self.old (arc_value value) entry) }
        ensures receipt { IfOk result (λ receipt. receipt ≡ self.new) }
        ensures err { OnErr result (self.new ≡ self.old) }
        ensures value_back { IfErr result (λ back. back.0 ≡ value) }
        ensures entry_back { IfErr result (λ back. back.1 ≡ entry) }
    {
        if self.entries.reserve(1).is_err() {
            return Err((value, entry, NoMemory));
        }
        let (Ok(told), Ok(shown)) = (Arc::try_clone(&value), Arc::try_clone(&value)) else {
            return Err((value, entry, NoMemory));
        };
        let mut known = self.newest.known.again();
        if !known.add(&self.head, &value, &entry) {
            return Err((value, entry, NoMemory));
        }

        // The history has the operation. Where it can't be shown now, the next one is shown in its place.
        let receipt = Receipt::new(Shown::new(told, known.again()));
        let operation = Shown::new(shown, known.again());
        show(&mut self.copies, rt, operation);
        self.entries.push_reserved(entry);
        self.newest = Shown::new(value, known);
        Ok(receipt)
    }

    /// A receipt of the whole history so far.
    pub fn tell(&mut self) -> Result<Receipt<T, E>, NoMemory>
        ensures whole { IfOk result (λ receipt. receipt ≡ self.new) }
        ensures same { self.new ≡ self.old }
    {
        Ok(Receipt::new(self.newest.another()?))
    }

    /// The entries of all operations, in order.
    pub fn entries(&self) -> &[E]
        ensures entries { result.now ≡ entries_of self.now.log }
        ensures all { IsPlace (length result.now) self.now.log }
    {
        self.entries.as_slice()
    }

    /// Ends the registry, and gives the entries of all operations, in order. It waits for readers that are taking
    /// meanwhile; each goes on with the value that it keeps.
    pub fn into_entries<R: Wait>(self, rt: &R) -> Vec<E>
        ensures entries { result.items ≡ entries_of self.log }
        ensures all { IsPlace (vec_len result) self.log }
    {
        let Self {
            copies,
            head: _,
            newest: _,
            entries,
        } = self;
        if let Some(copies) = copies {
            copies.take(rt);
        }
        entries
    }
}
