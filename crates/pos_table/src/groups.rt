ghost use Rattle.std.specs.Prelude.{◌≡◌, ◌++◌, ◌∷◌, [], List, ℕ, IfOk, OnOk, if◌then◌else◌};
ghost use Rattle.std.specs.Option.{option_map_or};
ghost use Rattle.std.specs.Str.{bytes_eq};
ghost use Rattle.std.specs.declared.vec.Vec.{Vec};
ghost use Rattle.std.specs.declared.alloc.Global.{Global};

use mz_base::{NoMemory, Text, ValueRow};
use std::alloc::Global;
use std::collections::HashMap;

/// The values of each reading, in the order of their rows.
#[derive(Drop)]
pub struct Groups {
    by_reading: HashMap<Vec<char>, Vec<Text>>,
}

impl Groups {
    ghost use Rattle.mz_base.specs.Data.{values_of};
    ghost use Rattle.mz_base.specs.declared.data.ValueRow.{ValueRow};
    ghost use Rattle.pos_table.specs.Groups.{AreGroups, grouped};

    /// The groups of these rows.
    pub fn of(alloc: Global, rows: &[ValueRow]) -> Result<Groups, NoMemory>
        ensures { IfOk result (λ groups. AreGroups groups rows.now) }
    {
        let mut groups = Groups {
            by_reading: HashMap::new(alloc),
        };
        for row in rows {
            let reading = Vec::from_slice(alloc, row.reading.as_chars())?;
            let value = row.value.copy(alloc)?;
            groups.add(alloc, reading, value)?;
        }
        Ok(groups)
    }

    /// The values of a reading.
    pub fn values(&self, reading: &[char]) -> &[Text]
        ensures values { result.now ≡ grouped self.now reading.now }
        ensures rows { (rows : List ValueRow) → AreGroups self.now rows → result.now ≡ values_of rows reading.now }
    {
        match self.by_reading.get(reading) {
            Some(values) => values.as_slice(),
            None => &[],
        }
    }

    fn add(&mut self, alloc: Global, reading: Vec<char>, value: Text) -> Result<(), NoMemory>
        ensures { OnOk result ((text : List ℕ) → grouped self.new text ≡ grouped self.old text ++ (if bytes_eq text reading.items then value ∷ [] else [])) }
    {
        let taken = self.by_reading.remove(reading.as_slice());
        let mut values = values_or_new(alloc, taken);
        values.push(value)?;
        self.by_reading.insert(reading, values)?;
        Ok(())
    }
}

fn values_or_new(alloc: Global, values: Option<Vec<Text>>) -> Vec<Text>
    ensures { result.items ≡ option_map_or (λ (values : Vec (List ℕ) Global). values.items) values [] }
{
    match values {
        Some(values) => values,
        None => Vec::new(alloc),
    }
}
