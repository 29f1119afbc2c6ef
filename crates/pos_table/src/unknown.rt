ghost use Rattle.std.specs.Prelude.{◌≡◌, ◌≤◌, ◌<◌, find, option_map, slice_index_or};
ghost use Rattle.mz_base.specs.Answers.{Gives};
ghost use Rattle.mz_base.specs.Data.{class_place, no_unknown};
ghost use Rattle.mz_base.specs.Latest.{latest};
ghost use Rattle.mz_base.specs.Lines.{fields_of};
ghost use Rattle.mz_base.specs.declared.data.TheConstants.{MOST_IDS};
ghost use Rattle.pos_table.specs.ClassColumns.{fields_view, node_view};
ghost use Rattle.pos_table.specs.Classes.{class_fields, class_in, class_named, class_numbers, is_node, nodes_of, unknown_rows, node_of, last_node, has_class, same_class};

use mz_base::{
    Class, FaultKind, LineReader, MOST_DIGITS, MOST_IDS, ReadError, UnknownRow, cut_field, is_cost,
    number, read_table, signed,
};
use std::alloc::Global;
use std::marker::Model;

/// The id of unknown words where no row gives one.
pub const UNKNOWN_ID: u16 = 0;
/// The cost of unknown words where no row gives one.
pub const UNKNOWN_COST: i32 = 10_000;

/// The ids and costs of characters that no word explains, one row for each class.
#[derive(Drop)]
pub struct Unknown {
    rows: [UnknownRow; 5],
}

impl Model for Unknown {
    ghost use Rattle.std.specs.Prelude.{List};
    ghost use Rattle.mz_base.specs.declared.data.UnknownRow.{UnknownRow};

    ghost Value = { List UnknownRow };

    ghost view = { λ t. t.rows };
}

/// Reads a file of unknown words.
pub fn read_unknown(alloc: Global, bytes: &[u8], n_ids: u32) -> Result<Unknown, ReadError>
    requires { n_ids ≤ MOST_IDS }
    ensures { Gives (λ unknown. unknown) result (unknown_rows n_ids bytes.now) }
{
    let rows = read_table(alloc, ClassReader { ids: n_ids }, bytes)?;
    Ok(unknown_of(rows.as_slice()))
}

impl Unknown {
    /// Five rows: of hiragana, katakana, digits, letters and the other characters.
    pub fn from_rows(rows: [UnknownRow; 5]) -> Unknown
        ensures { result ≡ rows }
    {
        Unknown { rows }
    }

    /// The rows of hiragana, katakana, digits, letters and the other characters.
    pub fn rows(&self) -> &[UnknownRow]
        ensures { result.now ≡ self.now }
    {
        &self.rows
    }

    /// The id and the cost of a character of this class that no word explains.
    pub fn unknown(&self, class: Class) -> (u16, i32)
        ensures { let row = slice_index_or self.now (class_place class) no_unknown in result ≡ (row.id, row.cost) }
    {
        let row = self.rows[place_of(class)];
        (row.id, row.cost)
    }
}

fn place_of(class: Class) -> usize
    ensures value { result ≡ class_place class }
    ensures small { result < 5 }
{
    match class {
        Class::Hiragana => 0,
        Class::Katakana => 1,
        Class::Digit => 2,
        Class::Letter => 3,
        Class::Other => 4,
    }
}

fn unknown_of(rows: &[ClassRow]) -> Unknown
    ensures { result ≡ nodes_of rows.now }
{
    Unknown {
        rows: [
            node_of(rows, Class::Hiragana),
            node_of(rows, Class::Katakana),
            node_of(rows, Class::Digit),
            node_of(rows, Class::Letter),
            node_of(rows, Class::Other),
        ],
    }
}

/// The last row of the class, or that of the other characters.
fn node_of(rows: &[ClassRow], class: Class) -> UnknownRow
    ensures { result ≡ node_of rows.now class }
{
    last_node(rows, class)
        .or(last_node(rows, Class::Other))
        .unwrap_or(UnknownRow {
            id: UNKNOWN_ID,
            cost: UNKNOWN_COST,
        })
}

fn last_node(rows: &[ClassRow], class: Class) -> Option<UnknownRow>
    ensures { result ≡ last_node rows.now class }
{
    match last_row(rows, class) {
        Some(row) => Some(row.node),
        None => None,
    }
}

fn last_row(rows: &[ClassRow], class: Class) -> Option<ClassRow>
    ensures { result ≡ find (has_class class) (latest same_class rows.now) }
{
    let mut found = None;
    for row in rows {
        if place_of(row.class) == place_of(class) {
            found = Some(*row);
        }
    }
    found
}

/// A row of a file of unknown words.
#[derive(Clone, Copy)]
struct ClassRow {
    class: Class,
    node: UnknownRow,
}

/// Reads the rows of a file of unknown words, line by line.
#[derive(Drop)]
struct ClassReader {
    ids: u32,
    ghost few: { ids ≤ MOST_IDS },
}

impl LineReader for ClassReader {
    type Row = ClassRow;

    ghost use Rattle.pos_table.specs.Classes.{class_in};

    ghost row_in = { λ reader. class_in reader.ids };

    fn read_line(&self, _alloc: Global, number: u64, line: &str) -> Result<ClassRow, ReadError> {
        read_class(self.ids, number, line)
    }
}

fn read_class(ids: u32, line: u64, text: &str) -> Result<ClassRow, ReadError>
    requires { ids ≤ MOST_IDS }
    ensures { Gives (λ row. row) result (class_in ids line text.now) }
{
    let Some(columns) = columns_of(text) else {
        return Err(FaultKind::Fields(line).into());
    };
    let Some(class) = class_named(columns.class) else {
        return Err(FaultKind::Class(line).into());
    };
    match node_in(&columns) {
        None => Err(FaultKind::Number(line).into()),
        Some(node) if is_node(ids, &node) => Ok(ClassRow {
            class,
            node: UnknownRow {
                id: node.id as u16,
                cost: node.cost as i32,
            },
        }),
        Some(_) => Err(FaultKind::Range(line).into()),
    }
}

/// The fields of a row, as they stand on the line.
#[derive(Clone, Copy)]
struct Columns<'a> {
    class: &'a str,
    id: &'a str,
    cost: &'a str,
}

fn columns_of(line: &str) -> Option<Columns<'_>>
    ensures { option_map fields_view result ≡ class_fields (fields_of line.now) }
{
    let (class, rest) = cut_field(line);
    let (id, rest) = cut_field(rest?);
    let (cost, _) = cut_field(rest?);
    Some(Columns { class, id, cost })
}

fn class_named(name: &str) -> Option<Class>
    ensures { result ≡ class_named name.now }
{
    if name == "HIRAGANA" {
        Some(Class::Hiragana)
    } else if name == "KATAKANA" {
        Some(Class::Katakana)
    } else if name == "DIGIT" {
        Some(Class::Digit)
    } else if name == "LETTER" {
        Some(Class::Letter)
    } else if name == "OTHER" {
        Some(Class::Other)
    } else {
        None
    }
}

/// The numbers of a row, before their limits are tested.
#[derive(Clone, Copy)]
struct Node {
    id: u64,
    cost: i64,
}

fn node_in(columns: &Columns<'_>) -> Option<Node>
    ensures { option_map node_view result ≡ class_numbers (fields_view columns.now) }
{
    Some(Node {
        id: number(columns.id)?,
        cost: signed(columns.cost, MOST_DIGITS)?,
    })
}

fn is_node(ids: u32, node: &Node) -> bool
    ensures { result ≡ is_node ids (node_view node.now) }
{
    node.id < ids as u64 && is_cost(node.cost)
}
