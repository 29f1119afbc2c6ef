ghost use Rattle.std.specs.Prelude.{◌≡◌, ℕ, List, ◌++◌, IfOk, OnOk, Option, Result, Ok, Err, option_to_list};
ghost use Rattle.mz_base.specs.Answers.{Gives};
ghost use Rattle.mz_base.specs.Lines.{lines_of};
ghost use Rattle.mz_base.specs.Rows.{rows_after, table_rows, AreRowsOf, IsFirstFault};
ghost use Rattle.mz_base.specs.declared.fault.FaultKind.{FaultKind};

use crate::{FaultKind, FileLines, MOST_ROWS, NoMemory, ReadError, text_of_line};
use std::alloc::Global;

/// How a kind of file is read, line by line.
pub trait RowReader {
    /// What a line can give.
    type Row: Drop;

    /// What a line with this number gives after these rows.
    ghost row_of: { Self → List Self.Row → ℕ → List ℕ → Result (Option Self.Row) FaultKind };

    /// What the reader has noted fits the rows so far.
    ghost knows: { Self → List Self.Row → Type 0 } = { λ _ _. Unit {0} };

    /// Reads one line, without its end; the number counts from 1.
    fn read_row(
        &mut self,
        alloc: Global,
        rows: &[Self::Row],
        number: u64,
        line: &[u8],
    ) -> Result<Option<Self::Row>, ReadError>
        requires { knows self.old rows.now }
        ensures given { Gives (λ row. row) result (row_of self.old rows.now number line.now) }
        ensures same { row_of self.new ≡ row_of self.old }
        ensures noted { IfOk result (λ row. knows self.new (rows.now ++ option_to_list row)) };
}

/// The rows before, and then those of the lines of a file; or its first fault, and the rows are dropped.
pub fn read_rows<R: RowReader>(
    alloc: Global,
    reader: &mut R,
    before: Vec<R::Row>,
    bytes: &[u8],
) -> Result<Vec<R::Row>, ReadError>
    requires { R.knows reader.old before.items }
    ensures { Gives (λ rows. rows.items) result (rows_after (R.row_of reader.old) before.items 1 (lines_of bytes.now)) }
{
    let mut rows = before;
    let mut number = 0;
    for line in FileLines::of(bytes) {
        number += 1;
        let row = reader.read_row(alloc, rows.as_slice(), number, line)?;
        put(&mut rows, row)?;
    }
    Ok(rows)
}

/// How a line of a table is read. A table has a row on each line that is not empty, and at most `MOST_ROWS` rows.
pub trait LineReader {
    /// What a line gives.
    type Row: Drop;

    /// The row of a line with this number, or its fault.
    ghost row_in: { Self → ℕ → List ℕ → Result Self.Row FaultKind };

    /// Reads one line that is not empty, without its end; the number counts from 1.
    fn read_line(&self, alloc: Global, number: u64, line: &str) -> Result<Self::Row, ReadError>
        ensures { Gives (λ row. row) result (row_in self.now number line.now) };
}

/// The rows of a table, or its first fault.
pub fn read_table<R: LineReader + Drop>(
    alloc: Global,
    reader: R,
    bytes: &[u8],
) -> Result<Vec<R::Row>, ReadError>
    ensures { Gives (λ rows. rows.items) result (table_rows (R.row_in reader) bytes.now) }
{
    read_rows(alloc, &mut TableLines { reader }, Vec::new(alloc), bytes)
}

/// The lines of a table.
#[derive(Drop)]
struct TableLines<R> {
    reader: R,
}

impl<R: LineReader> RowReader for TableLines<R> {
    type Row = R::Row;

    ghost use Rattle.mz_base.specs.Rows.{table_row};

    ghost row_of = { λ lines. table_row (R.row_in lines.reader) };

    #[tactic(auto, unfolding(crate::specs::Rows::table_row))]
    fn read_row(
        &mut self,
        alloc: Global,
        rows: &[R::Row],
        number: u64,
        line: &[u8],
    ) -> Result<Option<R::Row>, ReadError> {
        let Some(text) = text_of_line(line) else {
            return Err(FaultKind::NotUtf8(number).into());
        };
        if text.is_empty() {
            return Ok(None);
        }
        let row = self.reader.read_line(alloc, number, text)?;
        if MOST_ROWS <= rows.len() {
            return Err(FaultKind::Limit(number).into());
        }
        Ok(Some(row))
    }
}

fn put<T: Drop>(rows: &mut Vec<T>, row: Option<T>) -> Result<(), NoMemory>
    ensures { OnOk result (rows.new.items ≡ rows.old.items ++ option_to_list row) }
{
    if let Some(row) = row {
        rows.push(row)?;
    }
    Ok(())
}

/// A file that reads gives the rows of the lines that have one, in order. One that does not has a line with the fault
/// that is told, and each line before it reads. For every kind of file, and whatever a line's reading notes.
pub fn rows_go_line_by_line<R: RowReader>(reader: &R)
    ensures ok { (before : List R.Row) (first : ℕ) (lines : List (List ℕ)) (all : List R.Row) →
        rows_after (R.row_of reader.now) before first lines ≡ Ok all → AreRowsOf (R.row_of reader.now) before first lines all }
    ensures err { (before : List R.Row) (first : ℕ) (lines : List (List ℕ)) (kind : FaultKind) →
        rows_after (R.row_of reader.now) before first lines ≡ Err kind → IsFirstFault (R.row_of reader.now) before first lines kind }
{}
