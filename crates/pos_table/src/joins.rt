ghost use Rattle.std.specs.Prelude.{◌≡◌, ◌≤◌, IsTrue, option_map};
ghost use Rattle.std.specs.List.{list_any};
ghost use Rattle.mz_base.specs.Answers.{Gives};
ghost use Rattle.mz_base.specs.Data.{row_joins};
ghost use Rattle.mz_base.specs.Lines.{fields_of};
ghost use Rattle.mz_base.specs.declared.data.TheConstants.{MOST_IDS};
ghost use Rattle.pos_table.specs.JoinColumns.{fields_view, bounds_view};
ghost use Rattle.pos_table.specs.Joins.{join_rows, join_in, join_fields, join_numbers, is_join};

use mz_base::{FaultKind, JoinRow, LineReader, MOST_IDS, ReadError, cut_field, number, read_table};
use std::alloc::Global;
use std::marker::Model;

/// Which right ids join which left ids into one segment.
#[derive(Drop)]
pub struct Joins {
    rows: Vec<JoinRow>,
}

impl Model for Joins {
    ghost use Rattle.std.specs.Prelude.{List};
    ghost use Rattle.mz_base.specs.declared.data.JoinRow.{JoinRow};

    ghost Value = { List JoinRow };

    ghost view = { λ t. t.rows.items };
}

/// Reads a segment file.
pub fn read_joins(alloc: Global, bytes: &[u8], n_ids: u32) -> Result<Joins, ReadError>
    requires { n_ids ≤ MOST_IDS }
    ensures { Gives (λ joins. joins) result (join_rows n_ids bytes.now) }
{
    let rows = read_table(alloc, JoinReader { ids: n_ids }, bytes)?;
    Ok(Joins::from_rows(rows))
}

impl Joins {
    pub fn from_rows(rows: Vec<JoinRow>) -> Joins
        ensures { result ≡ rows.items }
    {
        Joins { rows }
    }

    /// The rows, in their order.
    pub fn rows(&self) -> &[JoinRow]
        ensures { result.now ≡ self.now }
    {
        self.rows.as_slice()
    }

    /// Whether a word with the right id `r` and one with the left id `l` after it are of one segment.
    pub fn joins(&self, r: u16, l: u16) -> bool
        ensures { result ≡ list_any (row_joins r l) self.now }
    {
        any_joins(self.rows.as_slice(), r, l)
    }
}

fn any_joins(rows: &[JoinRow], r: u16, l: u16) -> bool
    ensures { result ≡ list_any (row_joins r l) rows.now }
{
    rows.iter().any(|row| {
        row.first_right <= r && r <= row.last_right && row.first_left <= l && l <= row.last_left
    })
}

/// Reads the rows of a segment file, line by line.
#[derive(Drop)]
struct JoinReader {
    ids: u32,
    ghost few: { ids ≤ MOST_IDS },
}

impl LineReader for JoinReader {
    type Row = JoinRow;

    ghost use Rattle.pos_table.specs.Joins.{join_in};

    ghost row_in = { λ reader. join_in reader.ids };

    fn read_line(&self, _alloc: Global, number: u64, line: &str) -> Result<JoinRow, ReadError> {
        read_join(self.ids, number, line)
    }
}

/// The numbers of a row, before their limits are tested.
#[derive(Clone, Copy)]
struct Bounds {
    first_right: u64,
    last_right: u64,
    first_left: u64,
    last_left: u64,
}

fn read_join(ids: u32, number: u64, line: &str) -> Result<JoinRow, ReadError>
    requires { ids ≤ MOST_IDS }
    ensures { Gives (λ row. row) result (join_in ids number line.now) }
{
    let Some(columns) = columns_of(line) else {
        return Err(FaultKind::Fields(number).into());
    };
    match bounds_of(&columns) {
        None => Err(FaultKind::Number(number).into()),
        Some(bounds) if is_join(ids, &bounds) => Ok(join_of(ids, &bounds)),
        Some(_) => Err(FaultKind::Range(number).into()),
    }
}

/// The fields of a row, as they stand on the line.
#[derive(Clone, Copy)]
struct Columns<'a> {
    first_right: &'a str,
    last_right: &'a str,
    first_left: &'a str,
    last_left: &'a str,
}

fn columns_of(line: &str) -> Option<Columns<'_>>
    ensures { option_map fields_view result ≡ join_fields (fields_of line.now) }
{
    let (first_right, rest) = cut_field(line);
    let (last_right, rest) = cut_field(rest?);
    let (first_left, rest) = cut_field(rest?);
    let (last_left, _) = cut_field(rest?);
    Some(Columns {
        first_right,
        last_right,
        first_left,
        last_left,
    })
}

fn bounds_of(columns: &Columns<'_>) -> Option<Bounds>
    ensures { option_map bounds_view result ≡ join_numbers (fields_view columns.now) }
{
    Some(Bounds {
        first_right: number(columns.first_right)?,
        last_right: number(columns.last_right)?,
        first_left: number(columns.first_left)?,
        last_left: number(columns.last_left)?,
    })
}

fn is_join(ids: u32, bounds: &Bounds) -> bool
    ensures { result ≡ is_join ids (bounds_view bounds.now) }
{
    let ids = ids as u64;
    bounds.first_right <= bounds.last_right
        && bounds.last_right < ids
        && bounds.first_left <= bounds.last_left
        && bounds.last_left < ids
}

fn join_of(ids: u32, bounds: &Bounds) -> JoinRow
    requires few { ids ≤ MOST_IDS }
    requires within { IsTrue (is_join ids (bounds_view bounds.now)) }
    ensures { result ≡ bounds_view bounds.now }
{
    JoinRow {
        first_right: bounds.first_right as u16,
        last_right: bounds.last_right as u16,
        first_left: bounds.first_left as u16,
        last_left: bounds.last_left as u16,
    }
}
