ghost use Rattle.std.specs.Prelude.{◌<◌, ◌^◌, length};
ghost use Rattle.mz_base.specs.declared.fault.Role.TheVariants.{Dictionary};
ghost use Rattle.engine.specs.Answers.{Gives};
ghost use Rattle.engine.specs.Sets.{data_of, files_of};

use crate::tables::read_tables;
use crate::{BuildError, Engine, SetFiles};
use dict_index::SortedIndex;
use mz_base::DataSet;
use std::alloc::Global;

/// The data set that the files give, or the first fault in the order of roles.
pub fn build(alloc: Global, files: &SetFiles) -> Result<Engine, BuildError>
    requires few { length (files_of Dictionary files.now.files) < 2 ^ 32 }
    ensures { Gives (λ engine. ⟦<Engine as DataSet>⟧.lists engine) result (data_of files.now.files) }
{
    let tables = read_tables(alloc, files.files.as_slice())?;
    let index = SortedIndex::build(alloc, tables.words.as_slice())?;
    Ok(Engine::of(tables, index))
}
