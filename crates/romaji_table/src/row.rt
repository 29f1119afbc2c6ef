ghost use Rattle.std.specs.Prelude.{◌≡◌, IfOk, option_map};
ghost use Rattle.mz_base.specs.Answers.{Gives};
ghost use Rattle.mz_base.specs.Lines.{pointed};
ghost use Rattle.romaji_table.specs.Columns.{row_of_columns};
ghost use Rattle.romaji_table.specs.Rows.{is_comment, row_fields, rule_of, fields_row, passes_limit};

use mz_base::{
    FaultKind, MOST_ROWS, NoMemory, ReadError, RowReader, Rule, Text, cut_fields, is_long,
    is_skipped, text_of_line,
};
use std::alloc::Global;

/// Reads the rules of a romaji file, line by line.
#[derive(Drop)]
pub struct RuleReader;

impl RowReader for RuleReader {
    type Row = Rule;

    ghost use Rattle.romaji_table.specs.Rows.{romaji_row};

    ghost row_of = { λ _. romaji_row };

    fn read_row(
        &mut self,
        alloc: Global,
        rows: &[Rule],
        number: u64,
        line: &[u8],
    ) -> Result<Option<Rule>, ReadError> {
        let Some(text) = text_of_line(line) else {
            return Err(FaultKind::NotUtf8(number).into());
        };
        if is_comment(line) {
            return Ok(None);
        }
        let fields = cut_fields(alloc, text)?;
        read_fields(alloc, rows.len(), number, fields.as_slice())
    }
}

fn is_comment(line: &[u8]) -> bool
    ensures { result ≡ is_comment line.now }
{
    is_skipped(line) && !line.contains(&b'\t')
}

fn read_fields(
    alloc: Global,
    rows: usize,
    number: u64,
    fields: &[&str],
) -> Result<Option<Rule>, ReadError>
    ensures { Gives (λ row. row) result (fields_row rows number (row_fields (pointed fields.now))) }
{
    match columns_of(fields) {
        Some(columns) => read_rule(alloc, rows, number, columns),
        None => Err(FaultKind::Fields(number).into()),
    }
}

/// The fields of a row.
#[derive(Clone, Copy)]
struct Columns<'a> {
    input: &'a str,
    output: &'a str,
    pending: &'a str,
}

fn columns_of<'a>(fields: &[&'a str]) -> Option<Columns<'a>>
    ensures { option_map row_of_columns result ≡ row_fields (pointed fields.now) }
{
    match fields {
        [input, output] => Some(Columns {
            input,
            output,
            pending: "",
        }),
        [input, output, pending] => Some(Columns {
            input,
            output,
            pending,
        }),
        _ => None,
    }
}

fn read_rule(
    alloc: Global,
    rows: usize,
    number: u64,
    columns: Columns<'_>,
) -> Result<Option<Rule>, ReadError>
    ensures { Gives (λ row. row) result (fields_row rows number (Some (row_of_columns columns.entry))) }
{
    if columns.input.is_empty() {
        return Err(FaultKind::Empty(number).into());
    }
    let rule = rule_of(alloc, columns)?;
    if rule.input.as_chars().len() <= rule.pending.as_chars().len() {
        return Err(FaultKind::LongPending(number).into());
    }
    if passes_limit(rows, columns) {
        return Err(FaultKind::Limit(number).into());
    }
    Ok(Some(rule))
}

fn rule_of(alloc: Global, columns: Columns<'_>) -> Result<Rule, NoMemory>
    ensures { IfOk result (λ rule. rule ≡ rule_of (row_of_columns columns.entry)) }
{
    Ok(Rule {
        input: Text::from_str(alloc, columns.input)?,
        output: Text::from_str(alloc, columns.output)?,
        pending: Text::from_str(alloc, columns.pending)?,
    })
}

fn passes_limit(rows: usize, columns: Columns<'_>) -> bool
    ensures { result ≡ passes_limit rows (row_of_columns columns.entry) }
{
    MOST_ROWS <= rows
        || is_long(columns.input)
        || is_long(columns.output)
        || is_long(columns.pending)
}
