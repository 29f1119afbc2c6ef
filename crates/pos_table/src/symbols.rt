ghost use Rattle.std.specs.Prelude.{◌≡◌, IfOk};
ghost use Rattle.mz_base.specs.Answers.{Gives};
ghost use Rattle.mz_base.specs.Data.{values_of};
ghost use Rattle.pos_table.specs.Values.{value_rows};

use crate::groups::Groups;
use crate::values::read_values;
use mz_base::{NoMemory, ReadError, Text, ValueRow};
use std::alloc::Global;
use std::marker::Model;

/// The symbols of readings.
#[derive(Drop)]
pub struct Symbols {
    rows: Vec<ValueRow>,
    groups: Groups,
}

impl Model for Symbols {
    ghost use Rattle.std.specs.Prelude.{List};
    ghost use Rattle.mz_base.specs.declared.data.ValueRow.{ValueRow};
    ghost use Rattle.pos_table.specs.Groups.{AreGroups};

    ghost Value = { List ValueRow };

    ghost view = { λ t. t.rows.items };

    ghost invariant = { λ t. AreGroups t.groups t.rows.items };
}

/// Reads a file of symbols.
pub fn read_symbols(alloc: Global, bytes: &[u8]) -> Result<Symbols, ReadError>
    ensures { Gives (λ symbols. symbols) result (value_rows bytes.now) }
{
    let rows = read_values(alloc, bytes)?;
    Ok(Symbols::from_rows(alloc, rows)?)
}

impl Symbols {
    pub fn from_rows(alloc: Global, rows: Vec<ValueRow>) -> Result<Symbols, NoMemory>
        ensures { IfOk result (λ symbols. symbols ≡ rows.items) }
    {
        let groups = Groups::of(alloc, rows.as_slice())?;
        Ok(Symbols { rows, groups })
    }

    /// The rows, in the order of the file.
    pub fn rows(&self) -> &[ValueRow]
        ensures { result.now ≡ self.now }
    {
        self.rows.as_slice()
    }

    /// The symbols for a reading, in the order of the rows.
    pub fn symbols(&self, reading: &[char]) -> &[Text]
        ensures { result.now ≡ values_of self.now reading.now }
    {
        self.groups.values(reading)
    }
}
