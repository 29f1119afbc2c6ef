ghost use Rattle.std.specs.Prelude.{◌≡◌, ◌==◌, IfOk, length};
ghost use Rattle.composer.specs.Composing.{backspaced, deleted, inserted, moved_end, moved_home, moved_left, moved_right};
ghost use Rattle.conversion_meaning.specs.Lattices.{AreBounds, IsKey};
ghost use Rattle.session_meaning.specs.Outcomes.{conversion_of, empty};
ghost use Rattle.session_meaning.specs.Reached.{IsPinnedSound};
ghost use Rattle.session_meaning.specs.Stages.{cursor, preedit, reading, rules_of, suggested};

use crate::Pinned;
use composer::{Composer, Seen};
use mz_base::{Conversion, DataSet, NoMemory, Pair, UserWords};
use std::alloc::Global;
use std::marker::Model;

/// A text that is composed, with the data that it keeps. What is shown of it is made once.
#[derive(Drop)]
pub struct Composition<D: DataSet, U: UserWords> {
    pinned: Pinned<D, U>,
    composer: Composer,
    seen: Seen,
    suggested: Vec<Pair>,
}

impl<D: DataSet, U: UserWords> Model for Composition<D, U> {
    ghost use Rattle.session_meaning.specs.Stages.{Composition as Meant};
    ghost use Rattle.session.specs.Kept.{IsShown};

    ghost Value = { Meant };

    ghost view = { λ c. record { pinned = c.pinned; text = c.composer } };

    ghost invariant = { λ c. IsShown (record { pinned = c.pinned; text = c.composer }) c.seen c.suggested.items };
}

impl<D: DataSet + Drop, U: UserWords + Drop> Composition<D, U> {
    /// A text with its data.
    fn of(
        alloc: Global,
        pinned: Pinned<D, U>,
        composer: Composer,
    ) -> Result<Composition<D, U>, NoMemory>
        ensures { IfOk result (λ c. c ≡ record { pinned = pinned; text = composer }) }
    {
        let seen = composer.seen(&*pinned.set)?;
        let suggested = predictor::suggest(
            alloc,
            &*pinned.set,
            pinned.history.as_slice(),
            seen.base.as_chars(),
        )?;
        Ok(Composition {
            pinned,
            composer,
            seen,
            suggested,
        })
    }

    /// A first character begins a composition.
    pub fn begun(
        alloc: Global,
        pinned: Pinned<D, U>,
        letter: char,
    ) -> Result<Composition<D, U>, NoMemory>
        ensures { IfOk result (λ c. c ≡ record { pinned = pinned; text = inserted empty letter }) }
    {
        let composer = Composer::new(alloc).with_typed(letter)?;
        Composition::of(alloc, pinned, composer)
    }

    /// Another text with the same data.
    fn with_text(&self, alloc: Global, composer: Composer) -> Result<Composition<D, U>, NoMemory>
        ensures { IfOk result (λ c. c ≡ record self.now { text = composer }) }
    {
        Composition::of(alloc, self.pinned.share()?, composer)
    }

    pub fn typed(&self, alloc: Global, letter: char) -> Result<Composition<D, U>, NoMemory>
        ensures { IfOk result (λ c. c ≡ record self.now { text = inserted self.now.text letter }) }
    {
        let composer = self.composer.with_typed(letter)?;
        self.with_text(alloc, composer)
    }

    pub fn backspaced(&self, alloc: Global) -> Result<Composition<D, U>, NoMemory>
        ensures { IfOk result (λ c. c ≡ record self.now { text = backspaced (rules_of self.now) self.now.text }) }
    {
        let mut composer = self.composer.copy()?;
        composer.backspace(&*self.pinned.set)?;
        self.with_text(alloc, composer)
    }

    pub fn deleted(&self, alloc: Global) -> Result<Composition<D, U>, NoMemory>
        ensures { IfOk result (λ c. c ≡ record self.now { text = deleted (rules_of self.now) self.now.text }) }
    {
        let mut composer = self.composer.copy()?;
        composer.delete(&*self.pinned.set)?;
        self.with_text(alloc, composer)
    }

    pub fn moved_left(&self, alloc: Global) -> Result<Composition<D, U>, NoMemory>
        ensures { IfOk result (λ c. c ≡ record self.now { text = moved_left (rules_of self.now) self.now.text }) }
    {
        let mut composer = self.composer.copy()?;
        composer.left(&*self.pinned.set)?;
        self.with_text(alloc, composer)
    }

    pub fn moved_right(&self, alloc: Global) -> Result<Composition<D, U>, NoMemory>
        ensures { IfOk result (λ c. c ≡ record self.now { text = moved_right (rules_of self.now) self.now.text }) }
    {
        let mut composer = self.composer.copy()?;
        composer.right(&*self.pinned.set)?;
        self.with_text(alloc, composer)
    }

    pub fn moved_home(&self, alloc: Global) -> Result<Composition<D, U>, NoMemory>
        ensures { IfOk result (λ c. c ≡ record self.now { text = moved_home (rules_of self.now) self.now.text }) }
    {
        let mut composer = self.composer.copy()?;
        composer.home(&*self.pinned.set)?;
        self.with_text(alloc, composer)
    }

    pub fn moved_end(&self, alloc: Global) -> Result<Composition<D, U>, NoMemory>
        ensures { IfOk result (λ c. c ≡ record self.now { text = moved_end (rules_of self.now) self.now.text }) }
    {
        let mut composer = self.composer.copy()?;
        composer.end(&*self.pinned.set)?;
        self.with_text(alloc, composer)
    }

    /// What is shown.
    pub fn preedit(&self) -> &[char]
        ensures { result.now ≡ preedit self.now }
    {
        self.seen.preedit.as_chars()
    }

    /// Whether nothing is shown.
    pub fn is_empty(&self) -> bool
        ensures { result ≡ (length (preedit self.now) == 0) }
    {
        self.preedit().is_empty()
    }

    /// The number of shown characters before the cursor.
    pub fn cursor(&self) -> usize
        ensures { result ≡ cursor self.now }
    {
        self.seen.cursor
    }

    pub fn suggested(&self) -> &[Pair]
        ensures { result.now ≡ suggested self.now }
    {
        self.suggested.as_slice()
    }

    /// The finished text.
    pub fn reading(&self) -> Result<Vec<char>, NoMemory>
        ensures { IfOk result (λ text. text.items ≡ reading self.now) }
    {
        self.composer.reading(&*self.pinned.set)
    }

    /// The number of the job whose data it keeps.
    pub fn version(&self) -> u32
        ensures { result ≡ self.now.pinned.version }
    {
        self.pinned.version
    }

    /// Its data are within their limits. Nothing runs.
    pub fn data_are_sound(&self)
        ensures { IsPinnedSound self.now.pinned }
    {
        self.pinned.data_are_sound();
    }

    /// The conversion of the reading by the data that it keeps.
    pub fn conversion(
        &self,
        alloc: Global,
        key: &[char],
        bounds: &[u16],
    ) -> Result<Conversion, NoMemory>
        requires same { key.now ≡ reading self.now }
        requires key { IsKey key.now }
        requires bounds { AreBounds key.now bounds.now }
        ensures { IfOk result (λ conversion. conversion ≡ conversion_of self.now bounds.now) }
    {
        converter::convert(
            alloc,
            &*self.pinned.set,
            &*self.pinned.words,
            self.pinned.history.as_slice(),
            key,
            bounds,
        )
    }
}
