ghost use Rattle.std.specs.Prelude.{◌≡◌, ◌++◌, IfOk, OnOk};
ghost use Rattle.mz_base.specs.Answers.{Gives};
ghost use Rattle.mz_base.specs.Data.{values_of, kanji_rows, single_kanji};
ghost use Rattle.pos_table.specs.Values.{value_rows};

use crate::groups::Groups;
use crate::values::read_values;
use mz_base::{NoMemory, ReadError, Text, ValueRow};
use std::alloc::Global;
use std::marker::Model;

/// The single kanji of readings.
#[derive(Drop)]
pub struct Kanji {
    rows: Vec<ValueRow>,
    groups: Groups,
}

impl Model for Kanji {
    ghost use Rattle.std.specs.Prelude.{List};
    ghost use Rattle.mz_base.specs.declared.data.ValueRow.{ValueRow};
    ghost use Rattle.pos_table.specs.Groups.{AreGroups};
    ghost use Rattle.mz_base.specs.Data.{kanji_rows};

    ghost Value = { List ValueRow };

    ghost view = { λ t. t.rows.items };

    ghost invariant = { λ t. AreGroups t.groups (kanji_rows t.rows.items) };
}

/// Reads a file of single kanji.
pub fn read_kanji(alloc: Global, bytes: &[u8]) -> Result<Kanji, ReadError>
    ensures { Gives (λ kanji. kanji) result (value_rows bytes.now) }
{
    let rows = read_values(alloc, bytes)?;
    Ok(Kanji::from_rows(alloc, rows)?)
}

impl Kanji {
    pub fn from_rows(alloc: Global, rows: Vec<ValueRow>) -> Result<Kanji, NoMemory>
        ensures { IfOk result (λ kanji. kanji ≡ rows.items) }
    {
        let single = single_rows(alloc, rows.as_slice())?;
        let groups = Groups::of(alloc, single.as_slice())?;
        Ok(Kanji { rows, groups })
    }

    /// The rows, in the order of the file: a reading, and the characters for it.
    pub fn rows(&self) -> &[ValueRow]
        ensures { result.now ≡ self.now }
    {
        self.rows.as_slice()
    }

    /// The single kanji for a reading, in the order of the rows.
    pub fn kanji(&self, reading: &[char]) -> &[Text]
        ensures { result.now ≡ values_of (kanji_rows self.now) reading.now }
    {
        self.groups.values(reading)
    }
}

/// The rows with a row for each character.
#[tactic(auto, unfolding(mz_base::specs::Data::kanji_rows))]
fn single_rows(alloc: Global, rows: &[ValueRow]) -> Result<Vec<ValueRow>, NoMemory>
    ensures { IfOk result (λ single. single.items ≡ kanji_rows rows.now) }
{
    let mut single = Vec::new(alloc);
    for row in rows {
        add_kanji(alloc, &mut single, row)?;
    }
    Ok(single)
}

fn add_kanji(alloc: Global, single: &mut Vec<ValueRow>, row: &ValueRow) -> Result<(), NoMemory>
    ensures { OnOk result (single.new.items ≡ single.old.items ++ single_kanji row.now) }
{
    for letter in row.value.as_chars() {
        single.push(ValueRow {
            reading: row.reading.copy(alloc)?,
            value: Text::from_chars(alloc, &[*letter])?,
        })?;
    }
    Ok(())
}
