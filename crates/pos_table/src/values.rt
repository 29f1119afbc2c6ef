ghost use Rattle.std.specs.Prelude.{◌≡◌, option_map};
ghost use Rattle.mz_base.specs.Answers.{Gives};
ghost use Rattle.mz_base.specs.Lines.{fields_of};
ghost use Rattle.pos_table.specs.ValueColumns.{fields_view};
ghost use Rattle.pos_table.specs.Values.{value_fields, value_in, value_rows};

use mz_base::{FaultKind, LineReader, ReadError, Text, ValueRow, cut_field, is_long, read_table};
use std::alloc::Global;

/// The rows of a file of values: readings and what they stand for.
pub fn read_values(alloc: Global, bytes: &[u8]) -> Result<Vec<ValueRow>, ReadError>
    ensures { Gives (λ rows. rows.items) result (value_rows bytes.now) }
{
    read_table(alloc, ValueReader, bytes)
}

/// Reads the rows of a file of values, line by line.
#[derive(Drop)]
struct ValueReader;

impl LineReader for ValueReader {
    type Row = ValueRow;

    ghost use Rattle.pos_table.specs.Values.{value_in};

    ghost row_in = { λ _. value_in };

    fn read_line(&self, alloc: Global, number: u64, line: &str) -> Result<ValueRow, ReadError> {
        read_value(alloc, number, line)
    }
}

fn read_value(alloc: Global, line: u64, text: &str) -> Result<ValueRow, ReadError>
    ensures { Gives (λ row. row) result (value_in line text.now) }
{
    let Some(columns) = columns_of(text) else {
        return Err(FaultKind::Fields(line).into());
    };
    if columns.reading.is_empty() || columns.value.is_empty() {
        return Err(FaultKind::Empty(line).into());
    }
    if is_long(columns.reading) || is_long(columns.value) {
        return Err(FaultKind::Limit(line).into());
    }
    Ok(ValueRow {
        reading: Text::from_str(alloc, columns.reading)?,
        value: Text::from_str(alloc, columns.value)?,
    })
}

/// The fields of a row, as they stand on the line.
#[derive(Clone, Copy)]
struct Columns<'a> {
    reading: &'a str,
    value: &'a str,
}

fn columns_of(line: &str) -> Option<Columns<'_>>
    ensures { option_map fields_view result ≡ value_fields (fields_of line.now) }
{
    let (reading, rest) = cut_field(line);
    let (value, _) = cut_field(rest?);
    Some(Columns { reading, value })
}
