ghost use Rattle.std.specs.Prelude.{◌≡◌, find, option_map};
ghost use Rattle.std.specs.Option.{option_copied};
ghost use Rattle.mz_base.specs.Answers.{Gives};
ghost use Rattle.mz_base.specs.Data.{is_text};
ghost use Rattle.mz_base.specs.Lines.{fields_of};
ghost use Rattle.mz_base.specs.declared.data.PosRow.{PosRow};
ghost use Rattle.pos_table.specs.PosColumns.{fields_view};
ghost use Rattle.pos_table.specs.UserPos.{pos_rows, pos_in, pos_fields, id_of};

use crate::Ids;
use mz_base::{
    FaultKind, IdRow, LineReader, MOST_DIGITS, PosRow, ReadError, Text, cut_field, is_cost,
    is_long, latest_by_name, read_table, signed,
};
use std::alloc::Global;
use std::marker::Model;

/// The parts of speech that a user's words may have.
#[derive(Drop)]
pub struct UserPos {
    rows: Vec<PosRow>,
}

impl Model for UserPos {
    ghost use Rattle.std.specs.Prelude.{List};
    ghost use Rattle.mz_base.specs.declared.data.PosRow.{PosRow};

    ghost Value = { List PosRow };

    ghost view = { λ t. t.rows.items };
}

/// Reads a file of a user's parts of speech.
pub fn read_user_pos(alloc: Global, bytes: &[u8], ids: &Ids) -> Result<UserPos, ReadError>
    ensures { Gives (λ pos. pos) result (pos_rows ids.now bytes.now) }
{
    let rows = read_table(alloc, PosReader { ids: ids.rows() }, bytes)?;
    Ok(UserPos::from_rows(latest_by_name(alloc, rows)?))
}

impl UserPos {
    pub fn from_rows(rows: Vec<PosRow>) -> UserPos
        ensures { result ≡ rows.items }
    {
        UserPos { rows }
    }

    /// The rows, in their order; those of a file, in the order of their names.
    pub fn rows(&self) -> &[PosRow]
        ensures { result.now ≡ self.now }
    {
        self.rows.as_slice()
    }

    /// The id and the cost of a user's words of this part of speech.
    pub fn pos(&self, name: &[char]) -> Option<(u16, i32)>
        ensures { result ≡ option_map (λ (row : PosRow). (row.id, row.cost)) (find (λ row. is_text name.now row.name) self.now) }
    {
        match find_pos(self.rows.as_slice(), name) {
            Some(row) => Some((row.id, row.cost)),
            None => None,
        }
    }
}

fn find_pos<'a>(rows: &'a [PosRow], name: &[char]) -> Option<&'a PosRow>
    ensures { option_copied result ≡ find (λ row. is_text name.now row.name) rows.now }
{
    rows.iter().find(|row| row.name.as_chars() == name)
}

/// Reads the rows of a file of parts of speech, line by line.
#[derive(Drop)]
struct PosReader<'a> {
    ids: &'a [IdRow],
}

impl LineReader for PosReader<'_> {
    type Row = PosRow;

    ghost use Rattle.pos_table.specs.UserPos.{pos_in};

    ghost row_in = { λ reader. pos_in reader.ids.now };

    fn read_line(&self, alloc: Global, number: u64, line: &str) -> Result<PosRow, ReadError> {
        read_pos(alloc, self.ids, number, line)
    }
}

fn read_pos(alloc: Global, ids: &[IdRow], line: u64, text: &str) -> Result<PosRow, ReadError>
    ensures { Gives (λ row. row) result (pos_in ids.now line text.now) }
{
    let Some(columns) = columns_of(text) else {
        return Err(FaultKind::Fields(line).into());
    };
    if columns.name.is_empty() {
        return Err(FaultKind::Empty(line).into());
    }
    let Some(cost) = signed(columns.cost, MOST_DIGITS) else {
        return Err(FaultKind::Number(line).into());
    };
    if !is_cost(cost) {
        return Err(FaultKind::Range(line).into());
    }
    let feature = Text::from_str(alloc, columns.feature)?;
    let Some(id) = id_of(ids, feature.as_chars()) else {
        return Err(FaultKind::NoFeature(line).into());
    };
    if is_long(columns.name) {
        return Err(FaultKind::Limit(line).into());
    }
    Ok(PosRow {
        name: Text::from_str(alloc, columns.name)?,
        id,
        cost: cost as i32,
    })
}

/// The first id with this feature.
fn id_of(ids: &[IdRow], feature: &[char]) -> Option<u16>
    ensures { result ≡ id_of ids.now feature.now }
{
    match find_feature(ids, feature) {
        Some(row) => Some(row.id),
        None => None,
    }
}

fn find_feature<'a>(ids: &'a [IdRow], feature: &[char]) -> Option<&'a IdRow>
    ensures { option_copied result ≡ find (λ row. is_text feature.now row.feature) ids.now }
{
    ids.iter().find(|row| row.feature.as_chars() == feature)
}

/// The fields of a row, as they stand on the line.
#[derive(Clone, Copy)]
struct Columns<'a> {
    name: &'a str,
    feature: &'a str,
    cost: &'a str,
}

fn columns_of(line: &str) -> Option<Columns<'_>>
    ensures { option_map fields_view result ≡ pos_fields (fields_of line.now) }
{
    let (name, rest) = cut_field(line);
    let (feature, rest) = cut_field(rest?);
    let (cost, _) = cut_field(rest?);
    Some(Columns {
        name,
        feature,
        cost,
    })
}
