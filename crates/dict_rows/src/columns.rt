ghost use Rattle.std.specs.Prelude.{◌≡◌, ◌≤◌, option_map, IfOk, IsTrue};
ghost use Rattle.mz_base.specs.Answers.{Gives};
ghost use Rattle.mz_base.specs.Lines.{fields_of};
ghost use Rattle.dict_rows.specs.Columns.{row_of_columns, numbers_view};
ghost use Rattle.dict_rows.specs.Rows.{row_fields, row_numbers, numbers_in, is_blank, are_in_range, word_of};

use mz_base::{
    FaultKind, MOST_DIGITS, MOST_IDS, NoMemory, ReadError, Text, WordRow, cut_field, is_cost,
    number, signed,
};
use std::alloc::Global;

/// The fields of a row, as they stand on the line.
#[derive(Clone, Copy)]
pub struct Columns<'a> {
    pub reading: &'a str,
    pub lid: &'a str,
    pub rid: &'a str,
    pub cost: &'a str,
    pub value: &'a str,
}

/// The numbers of a row.
#[derive(Clone, Copy)]
pub struct Numbers {
    pub lid: u64,
    pub rid: u64,
    pub cost: i64,
}

/// The fields of a line; further ones do not count.
pub fn columns_of(line: &str) -> Option<Columns<'_>>
    ensures { option_map row_of_columns result ≡ row_fields (fields_of line.now) }
{
    let (reading, rest) = cut_field(line);
    let (lid, rest) = cut_field(rest?);
    let (rid, rest) = cut_field(rest?);
    let (cost, rest) = cut_field(rest?);
    let (value, _) = cut_field(rest?);
    Some(Columns {
        reading,
        lid,
        rid,
        cost,
        value,
    })
}

pub fn numbers_of(row: &Columns<'_>) -> Option<Numbers>
    ensures { option_map numbers_view result ≡ row_numbers (row_of_columns row.now) }
{
    Some(Numbers {
        lid: number(row.lid)?,
        rid: number(row.rid)?,
        cost: signed(row.cost, MOST_DIGITS)?,
    })
}

/// The numbers of a row with a reading and a value, within their limits.
pub fn tested_numbers(ids: u32, line: u64, row: &Columns<'_>) -> Result<Numbers, ReadError>
    ensures given { Gives numbers_view result (numbers_in ids line (row_of_columns row.now)) }
    ensures ranged { IfOk result (λ numbers. IsTrue (are_in_range ids (numbers_view numbers))) }
{
    if is_blank(row.reading) || is_blank(row.value) {
        return Err(FaultKind::Empty(line).into());
    }
    match numbers_of(row) {
        None => Err(FaultKind::Number(line).into()),
        Some(numbers) if are_in_range(ids, &numbers) => Ok(numbers),
        Some(_) => Err(FaultKind::Range(line).into()),
    }
}

fn is_blank(field: &str) -> bool
    ensures { result ≡ is_blank field.now }
{
    field.is_empty()
}

fn are_in_range(ids: u32, numbers: &Numbers) -> bool
    ensures { result ≡ are_in_range ids (numbers_view numbers.now) }
{
    numbers.lid < ids as u64 && numbers.rid < ids as u64 && is_cost(numbers.cost)
}

/// The row that its fields and numbers make.
pub fn word_of(
    alloc: Global,
    ids: u32,
    row: &Columns<'_>,
    numbers: &Numbers,
) -> Result<WordRow, NoMemory>
    requires few { ids ≤ MOST_IDS }
    requires ranged { IsTrue (are_in_range ids (numbers_view numbers.now)) }
    ensures { IfOk result (λ word. word ≡ word_of (row_of_columns row.now) (numbers_view numbers.now)) }
{
    Ok(WordRow {
        reading: Text::from_str(alloc, row.reading)?,
        lid: numbers.lid as u16,
        rid: numbers.rid as u16,
        cost: numbers.cost as i32,
        value: Text::from_str(alloc, row.value)?,
    })
}
