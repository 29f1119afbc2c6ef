ghost use Rattle.std.specs.Prelude.{◌≡◌, ◌<◌, ◌≤◌, nat_le, [], ◌++◌, length, Err, IfOk, OnOk, OnErr};
ghost use Rattle.composer.specs.Composing.{Composing, preedit_of, base_of, reading_of, cursor_of, seen_of, fixed, inserted, backspaced, deleted, moved_left, moved_right, moved_home, moved_end, without_first};

use crate::shown::{Shown, finish, kana};
use mz_base::{NoMemory, Romaji, Text};
use std::alloc::{AllocFailed, Global};
use std::marker::Model;

/// The most characters that are shown.
pub const MOST_SHOWN: usize = 256;

/// A text that is being composed. All calls on one composer take the same table.
#[derive(Drop)]
pub struct Composer {
    alloc: Global,
    left: Vec<char>,
    run: Vec<char>,
    right: Vec<char>,
}

impl Model for Composer {
    ghost use Rattle.composer.specs.Composing.{Composing};

    ghost Value = { Composing };

    ghost view = { λ c. record { left = c.left.items; run = c.run.items; right = c.right.items } };
}

impl Composer {
    /// A composer that shows nothing. Its later calls allocate here.
    pub fn new(alloc: Global) -> Composer
        ensures { result ≡ record { left = []; run = []; right = [] } }
    {
        Composer {
            alloc,
            left: Vec::new(alloc),
            run: Vec::new(alloc),
            right: Vec::new(alloc),
        }
    }

    /// A composer of the same texts.
    pub fn copy(&self) -> Result<Composer, NoMemory>
        ensures { IfOk result (λ copy. copy ≡ self.now) }
    {
        Ok(Composer {
            alloc: self.alloc,
            left: Vec::from_slice(self.alloc, self.left.as_slice())?,
            run: Vec::from_slice(self.alloc, self.run.as_slice())?,
            right: Vec::from_slice(self.alloc, self.right.as_slice())?,
        })
    }

    /// A composer of the same texts with one more character, typed at the cursor. It composes nothing, so it is for a
    /// caller that knows that fewer than [`MOST_SHOWN`] characters are shown.
    pub fn with_typed(&self, c: char) -> Result<Composer, NoMemory>
        ensures { IfOk result (λ typed. typed ≡ inserted self.now c) }
    {
        let mut typed = self.copy()?;
        typed.run.push(c)?;
        Ok(typed)
    }

    /// Types a character at the cursor.
    pub fn insert<R: Romaji>(&mut self, table: &R, c: char) -> Result<(), InsertError>
        ensures ok { OnOk result (self.new ≡ inserted self.old c) }
        ensures err { OnErr result (self.new ≡ self.old) }

        // `Full` comes exactly at the limit, unless memory runs out.
        ensures full { result ≡ Err InsertError.Full → MOST_SHOWN ≤ length (preedit_of (R.rules table.now) self.old) }
        ensures room { OnOk result (length (preedit_of (R.rules table.now) self.old) < MOST_SHOWN) }
    {
        if self.is_full(table)? {
            return Err(InsertError::Full);
        }
        self.run.push(c)?;
        Ok(())
    }

    /// Takes back what is before the cursor: of a pending text its last character, else the last kana.
    pub fn backspace<R: Romaji>(&mut self, table: &R) -> Result<(), NoMemory>
        ensures ok { OnOk result (self.new ≡ backspaced (R.rules table.now) self.old) }
        ensures err { OnErr result (self.new ≡ self.old) }
    {
        let shown = kana(self.alloc, table, self.run.as_slice())?;
        let mut pending = Vec::from_slice(self.alloc, shown.pending())?;
        self.left.extend_from_slice(shown.output())?;
        if pending.pop().is_none() {
            self.left.pop();
        }
        self.run = pending;
        Ok(())
    }

    /// Takes the character after the cursor, if there is one. The run is fixed.
    pub fn delete<R: Romaji>(&mut self, table: &R) -> Result<(), NoMemory>
        ensures ok { OnOk result (self.new ≡ deleted (R.rules table.now) self.old) }
        ensures err { OnErr result (self.new ≡ self.old) }
    {
        let before = self.fixed_before(table)?;
        self.fix(before);
        self.drop_next();
        Ok(())
    }

    /// Moves the cursor before the character that stands before it, if there is one. The run is fixed.
    pub fn left<R: Romaji>(&mut self, table: &R) -> Result<(), NoMemory>
        ensures ok { OnOk result (self.new ≡ moved_left (R.rules table.now) self.old) }
        ensures err { OnErr result (self.new ≡ self.old) }
    {
        let mut shorter = self.fixed_before(table)?;
        if let Some(crossed) = shorter.pop() {
            self.right.insert(0, crossed)?;
        }
        self.fix(shorter);
        Ok(())
    }

    /// Moves the cursor behind the character that stands after it, if there is one. The run is fixed.
    pub fn right<R: Romaji>(&mut self, table: &R) -> Result<(), NoMemory>
        ensures ok { OnOk result (self.new ≡ moved_right (R.rules table.now) self.old) }
        ensures err { OnErr result (self.new ≡ self.old) }
    {
        let mut longer = self.fixed_before(table)?;
        if let Some(crossed) = self.right.first() {
            longer.push(*crossed)?;
            self.right.remove(0);
        }
        self.fix(longer);
        Ok(())
    }

    /// Moves the cursor before all text. The run is fixed.
    pub fn home<R: Romaji>(&mut self, table: &R) -> Result<(), NoMemory>
        ensures ok { OnOk result (self.new ≡ moved_home (R.rules table.now) self.old) }
        ensures err { OnErr result (self.new ≡ self.old) }
    {
        let reading = self.reading(table)?;
        self.fix(Vec::new(self.alloc));
        self.right = reading;
        Ok(())
    }

    /// Moves the cursor behind all text. The run is fixed.
    pub fn end<R: Romaji>(&mut self, table: &R) -> Result<(), NoMemory>
        ensures ok { OnOk result (self.new ≡ moved_end (R.rules table.now) self.old) }
        ensures err { OnErr result (self.new ≡ self.old) }
    {
        let reading = self.reading(table)?;
        self.fix(reading);
        self.right.clear();
        Ok(())
    }

    /// What is shown, the cursor and the base, from one composing of the run.
    pub fn seen<R: Romaji>(&self, table: &R) -> Result<Seen, NoMemory>
        ensures { IfOk result (λ seen. seen ≡ seen_of (R.rules table.now) self.now) }
    {
        let shown = kana(self.alloc, table, self.run.as_slice())?;
        let preedit = self.preedit_with(&shown)?;
        let base = self.between_fixed(shown.output())?;
        Ok(Seen {
            preedit: Text::from_vec(preedit),
            cursor: self.cursor_with(&shown),
            base: Text::from_vec(base),
        })
    }

    /// What is shown.
    pub fn preedit<R: Romaji>(&self, table: &R) -> Result<Vec<char>, NoMemory>
        ensures { IfOk result (λ text. text.items ≡ preedit_of (R.rules table.now) self.now) }
    {
        let shown = kana(self.alloc, table, self.run.as_slice())?;
        self.preedit_with(&shown)
    }

    /// The number of shown characters before the cursor.
    pub fn cursor<R: Romaji>(&self, table: &R) -> Result<usize, NoMemory>
        ensures { IfOk result (λ cursor. cursor ≡ cursor_of (R.rules table.now) self.now) }
    {
        let shown = kana(self.alloc, table, self.run.as_slice())?;
        Ok(self.cursor_with(&shown))
    }

    /// What is shown without what is pending.
    pub fn base<R: Romaji>(&self, table: &R) -> Result<Vec<char>, NoMemory>
        ensures { IfOk result (λ text. text.items ≡ base_of (R.rules table.now) self.now) }
    {
        let shown = kana(self.alloc, table, self.run.as_slice())?;
        self.between_fixed(shown.output())
    }

    /// The finished text: nothing is pending.
    pub fn reading<R: Romaji>(&self, table: &R) -> Result<Vec<char>, NoMemory>
        ensures { IfOk result (λ text. text.items ≡ reading_of (R.rules table.now) self.now) }
    {
        let finished = finish(self.alloc, table, self.run.as_slice())?;
        self.between_fixed(finished.as_slice())
    }

    fn preedit_with(&self, shown: &Shown) -> Result<Vec<char>, NoMemory>
        ensures { IfOk result (λ text. text.items ≡ (self.now.left ++ (shown.now.output ++ shown.now.pending)) ++ self.now.right) }
    {
        let mut middle = Vec::from_slice(self.alloc, shown.output())?;
        middle.extend_from_slice(shown.pending())?;
        self.between_fixed(middle.as_slice())
    }

    fn cursor_with(&self, shown: &Shown) -> usize
        ensures { result ≡ length (self.now.left ++ (shown.now.output ++ shown.now.pending)) }
    {
        self.left.len() + (shown.output().len() + shown.pending().len())
    }

    fn between_fixed(&self, middle: &[char]) -> Result<Vec<char>, NoMemory>
        ensures { IfOk result (λ text. text.items ≡ (self.now.left ++ middle.now) ++ self.now.right) }
    {
        let mut text = Vec::from_slice(self.alloc, self.left.as_slice())?;
        text.extend_from_slice(middle)?;
        text.extend_from_slice(self.right.as_slice())?;
        Ok(text)
    }

    // The text before the cursor, once the run is fixed.
    fn fixed_before<R: Romaji>(&self, table: &R) -> Result<Vec<char>, NoMemory>
        ensures { IfOk result (λ text. text.items ≡ (fixed (R.rules table.now) self.now).left) }
    {
        let finished = finish(self.alloc, table, self.run.as_slice())?;
        let mut text = Vec::from_slice(self.alloc, self.left.as_slice())?;
        text.extend_from_slice(finished.as_slice())?;
        Ok(text)
    }

    // This text stands before the cursor, and no run.
    fn fix(&mut self, before: Vec<char>)
        ensures { self.new ≡ record self.old { left = before.items; run = [] } }
    {
        self.left = before;
        self.run.clear();
    }

    // The text after the cursor loses its first character, if it has one.
    fn drop_next(&mut self)
        ensures { self.new ≡ record self.old { right = without_first self.old.right } }
    {
        if !self.right.is_empty() {
            self.right.remove(0);
        }
    }

    fn is_full<R: Romaji>(&self, table: &R) -> Result<bool, NoMemory>
        ensures { IfOk result (λ full. full ≡ nat_le MOST_SHOWN (length (preedit_of (R.rules table.now) self.now))) }
    {
        Ok(self.preedit(table)?.len() >= MOST_SHOWN)
    }
}

/// What is seen of a composer.
#[derive(Drop)]
pub struct Seen {
    /// What is shown.
    pub preedit: Text,
    /// The number of shown characters before the cursor.
    pub cursor: usize,
    /// What is shown without what is pending.
    pub base: Text,
}

/// Why a typed character was not taken.
#[derive(Debug, Drop, PartialEq, Eq)]
pub enum InsertError {
    /// [`MOST_SHOWN`] characters are shown, or more.
    Full,
    NoMemory,
}

impl From<NoMemory> for InsertError {
    ghost use Rattle.std.specs.Prelude.{◌≡◌};
    ghost use Rattle.composer.specs.declared.composer.InsertError.TheVariants.{NoMemory};

    ghost from_gives = { λ _ e. e ≡ NoMemory };

    fn from(_error: NoMemory) -> InsertError {
        InsertError::NoMemory
    }
}

impl<T: Drop> From<AllocFailed<T>> for InsertError {
    ghost use Rattle.std.specs.Prelude.{◌≡◌};
    ghost use Rattle.composer.specs.declared.composer.InsertError.TheVariants.{NoMemory};

    ghost from_gives = { λ _ e. e ≡ NoMemory };

    fn from(_error: AllocFailed<T>) -> InsertError {
        InsertError::NoMemory
    }
}
