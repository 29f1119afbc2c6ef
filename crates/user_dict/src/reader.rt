ghost use Rattle.std.specs.Prelude.{◌≡◌, ◌<◌, ◌||◌, Ok, false, IfOk, OnOk, length, map, nat_le};
ghost use Rattle.mz_base.specs.declared.user.TheConstants.{MOST_USER_HOMOPHONES};
ghost use Rattle.user_dict.specs.Answers.{Gives};
ghost use Rattle.user_dict.specs.Columns.{fields_view};
ghost use Rattle.user_dict.specs.Kept.{row_of_entry, row_of_words};
ghost use Rattle.user_dict.specs.Rows.{has, is_past, made_row, take_full, take_line, take_new, take_row, times_in, with_skip};

use crate::columns::{Columns, columns_of, words_of};
use crate::counts::Counts;
use crate::error::ImportError;
use crate::lengths::is_long;
use crate::skipped::{Skip, SkippedLine};
use crate::words::Words;
use indexmap::IndexMap;
use mz_base::{
    MOST_USER_HOMOPHONES, MOST_USER_ROWS, NoMemory, Text, UserRow, is_skipped, text_of_line,
};
use std::alloc::Global;

/// What lines have given so far: each three texts once, with the line that they stood on first.
#[derive(Drop)]
pub struct Reader {
    pub rows: IndexMap<Words, u64>,
    pub counts: Counts,
    pub skipped: Vec<SkippedLine>,
}

impl Reader {
    ghost use Rattle.std.specs.Prelude.{[]};
    ghost use Rattle.user_dict.specs.Kept.{IsReader, taken_by};

    pub fn new(alloc: Global) -> Reader
        ensures taken { taken_by result ≡ record { rows = []; skipped = [] } }
        ensures kept { IsReader result }
    {
        Reader {
            rows: IndexMap::new(alloc),
            counts: Counts::new(alloc),
            skipped: Vec::new(alloc),
        }
    }

    /// Takes the line with this number, without its end.
    #[tactic(auto, unfolding(crate::specs::Rows::take_line))]
    pub fn take_line(&mut self, alloc: Global, number: u64, line: &[u8]) -> Result<(), ImportError>
        requires { IsReader self.old }
        ensures given { Gives (λ _. taken_by self.new) result (take_line (taken_by self.old) number line.now) }
        ensures kept { OnOk result (IsReader self.new) }
    {
        let Some(text) = text_of_line(line) else {
            return Err(ImportError::NotUtf8(number));
        };
        if is_skipped(line) {
            return Ok(());
        }
        match columns_of(text) {
            Some(columns) => self.take_columns(alloc, number, &columns),
            None => self.skip(number, Skip::Fields),
        }
    }

    fn take_columns(
        &mut self,
        alloc: Global,
        number: u64,
        columns: &Columns<'_>,
    ) -> Result<(), ImportError>
        requires { IsReader self.old }
        ensures given { Gives (λ _. taken_by self.new) result (take_row (taken_by self.old) (made_row number (fields_view columns.now))) }
        ensures kept { OnOk result (IsReader self.new) }
    {
        let words = words_of(alloc, columns)?;
        self.take_row(alloc, words, number)
    }

    fn take_row(&mut self, alloc: Global, words: Words, line: u64) -> Result<(), ImportError>
        requires { IsReader self.old }
        ensures given { Gives (λ _. taken_by self.new) result (take_row (taken_by self.old) (row_of_words words line)) }
        ensures kept { OnOk result (IsReader self.new) }
    {
        if words.reading.is_empty() {
            return self.skip(line, Skip::Reading);
        }
        if words.word.is_empty() {
            return self.skip(line, Skip::Word);
        }
        self.take_full(alloc, words, line)
    }

    fn take_full(&mut self, alloc: Global, words: Words, line: u64) -> Result<(), ImportError>
        requires { IsReader self.old }
        ensures given { Gives (λ _. taken_by self.new) result (take_full (taken_by self.old) (row_of_words words line)) }
        ensures kept { OnOk result (IsReader self.new) }
    {
        if self.has(&words, line) {
            return Ok(());
        }
        if self.is_past(&words, line) {
            return self.skip(line, Skip::Limit);
        }
        self.take_new(alloc, words, line)
    }

    /// Whether there is a row with these texts, whatever its line.
    fn has(&self, words: &Words, line: u64) -> bool
        ensures { result ≡ has (taken_by self.now).rows (row_of_words words.now line) }
    {
        self.rows.contains_key(words)
    }

    /// Whether a text is too long, or the reading has as many rows as may be.
    fn is_past(&self, words: &Words, line: u64) -> bool
        requires { IsReader self.now }
        ensures { result ≡ is_past (taken_by self.now).rows (row_of_words words.now line) }
    {
        is_long(words.reading.as_slice())
            || is_long(words.word.as_slice())
            || MOST_USER_HOMOPHONES <= self.counts.get(words.reading.as_slice())
    }

    /// Keeps a row that there is not yet, unless it is one too many.
    fn take_new(&mut self, alloc: Global, words: Words, line: u64) -> Result<(), ImportError>
        requires kept { IsReader self.old }
        requires new { has (taken_by self.old).rows (row_of_words words line) ≡ false }
        requires seldom { times_in (taken_by self.old).rows words.reading.items < MOST_USER_HOMOPHONES }
        ensures given { Gives (λ _. taken_by self.new) result (take_new (taken_by self.old) (row_of_words words line)) }
        ensures kept { OnOk result (IsReader self.new) }
    {
        if MOST_USER_ROWS <= self.rows.len() {
            return Err(ImportError::Limit(line));
        }
        let reading = Vec::from_slice(alloc, words.reading.as_slice())?;
        self.counts.add(reading)?;
        self.rows.insert(words, line)?;
        Ok(())
    }

    fn skip(&mut self, line: u64, why: Skip) -> Result<(), ImportError>
        ensures given { OnOk result (taken_by self.new ≡ with_skip (taken_by self.old) line why) }
        ensures counts { self.new.counts ≡ self.old.counts }
        ensures rows { self.new.rows ≡ self.old.rows }
        ensures full { Gives (λ _. taken_by self.new) result (Ok (with_skip (taken_by self.old) line why)) }
    {
        self.skipped.push(SkippedLine { line, why })?;
        Ok(())
    }
}

/// The rows of these entries. No text is copied.
pub fn rows_of(alloc: Global, entries: IndexMap<Words, u64>) -> Result<Vec<UserRow>, NoMemory>
    ensures { IfOk result (λ rows. rows.items ≡ map row_of_entry entries.entries) }
{
    let mut rows = Vec::with_capacity(alloc, entries.len())?;
    for (words, line) in entries {
        rows.push(row_of(words, line))?;
    }
    Ok(rows)
}

fn row_of(words: Words, line: u64) -> UserRow
    ensures { result ≡ row_of_words words line }
{
    let Words { reading, word, pos } = words;
    UserRow {
        reading: Text::from_vec(reading),
        word: Text::from_vec(word),
        pos: Text::from_vec(pos),
        line,
    }
}
