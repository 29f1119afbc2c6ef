ghost use Rattle.std.specs.Prelude.{◌≡◌, ◌≤◌, ◌||◌, ◌++◌, ◌∷◌, [], Some, IfOk, length, nat_le};
ghost use Rattle.mz_base.specs.Answers.{Gives};
ghost use Rattle.mz_base.specs.Limits.{is_long};
ghost use Rattle.mz_base.specs.declared.data.TheConstants.{MOST_WORDS};
ghost use Rattle.dict_rows.specs.Columns.{row_of_columns};
ghost use Rattle.dict_rows.specs.Rows.{word_rows, fields_row};

use crate::columns::{Columns, columns_of, tested_numbers, word_of};
use crate::tally::Tally;
use mz_base::{
    FaultKind, MOST_IDS, MOST_WORDS, ReadError, RowReader, WordRow, is_long, read_rows,
    text_of_line,
};
use std::alloc::Global;

/// The rows before, and then those of a dictionary file.
pub fn read(
    alloc: Global,
    bytes: &[u8],
    n_ids: u32,
    before: Vec<WordRow>,
) -> Result<Vec<WordRow>, ReadError>
    requires { n_ids ≤ MOST_IDS }
    ensures { Gives (λ rows. rows.items) result (word_rows n_ids before.items bytes.now) }
{
    let tally = Tally::of(alloc, before.as_slice())?;
    let mut reader = WordReader { ids: n_ids, tally };
    read_rows(alloc, &mut reader, before, bytes)
}

/// Reads the rows of a dictionary file, line by line.
#[derive(Drop)]
struct WordReader {
    ids: u32,
    tally: Tally,
}

impl RowReader for WordReader {
    type Row = WordRow;

    ghost use Rattle.dict_rows.specs.Rows.{word_row};
    ghost use Rattle.dict_rows.specs.Reader.{Knows};

    ghost row_of = { λ reader. word_row reader.ids };

    ghost knows = { Knows };

    #[tactic(auto, unfolding(crate::specs::Rows::word_row))]
    fn read_row(
        &mut self,
        alloc: Global,
        rows: &[WordRow],
        number: u64,
        line: &[u8],
    ) -> Result<Option<WordRow>, ReadError> {
        let Some(text) = text_of_line(line) else {
            return Err(FaultKind::NotUtf8(number).into());
        };
        if text.is_empty() {
            return Ok(None);
        }
        match columns_of(text) {
            Some(columns) => Ok(Some(self.read_columns(alloc, rows, number, &columns)?)),
            None => Err(FaultKind::Fields(number).into()),
        }
    }
}

impl WordReader {
    ghost use Rattle.mz_base.specs.declared.data.WordRow.{WordRow};
    ghost use Rattle.dict_rows.specs.Reader.{Knows};

    fn read_columns(
        &mut self,
        alloc: Global,
        rows: &[WordRow],
        number: u64,
        columns: &Columns<'_>,
    ) -> Result<WordRow, ReadError>
        requires { Knows self.old rows.now }
        ensures given { Gives (λ row. Some row) result (fields_row self.old.ids rows.now number (Some (row_of_columns columns.now))) }
        ensures same { self.new.ids ≡ self.old.ids }
        ensures noted { IfOk result (λ row. Knows self.new (rows.now ++ row ∷ [])) }
    {
        let numbers = tested_numbers(self.ids, number, columns)?;
        if is_too_much(rows, columns) {
            return Err(FaultKind::Limit(number).into());
        }
        let row = word_of(alloc, self.ids, columns, &numbers)?;
        if self.tally.is_full(rows, &row.reading) {
            return Err(FaultKind::Limit(number).into());
        }
        self.tally.note(&row.reading);
        Ok(row)
    }
}

/// Whether a text of the row is too long, or a row more after these is one too many.
fn is_too_much(rows: &[WordRow], columns: &Columns<'_>) -> bool
    ensures { result ≡ (is_long columns.now.reading.now || (is_long columns.now.value.now || nat_le MOST_WORDS (length rows.now))) }
{
    is_long(columns.reading) || is_long(columns.value) || MOST_WORDS <= rows.len()
}
