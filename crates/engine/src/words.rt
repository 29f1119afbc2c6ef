ghost use Rattle.std.specs.Prelude.{◌≡◌, ◌<◌, ◌≤◌, ◌^◌, [], IfOk, length};
ghost use Rattle.mz_base.specs.declared.data.TheConstants.{MOST_IDS};
ghost use Rattle.mz_base.specs.declared.fault.Role.TheVariants.{Dictionary};
ghost use Rattle.engine.specs.Answers.{Gives};
ghost use Rattle.engine.specs.Sets.{files_of, words_after, words_given};
ghost use Rattle.engine.specs.Tables.{pointed};

use crate::error::{BuildError, located};
use crate::files::{SetFile, has_role};
use mz_base::{MOST_IDS, NoMemory, Role, WordRow};
use std::alloc::Global;

/// The rows of all dictionary files, one file after the other.
pub fn read_words(alloc: Global, files: &[SetFile], n_ids: u32) -> Result<Vec<WordRow>, BuildError>
    requires few_ids { n_ids ≤ MOST_IDS }
    requires few_files { length (files_of Dictionary files.now) < 2 ^ 32 }
    ensures { Gives (λ rows. rows.items) result (words_given n_ids files.now) }
{
    let files = dictionaries(alloc, files)?;
    read_all(alloc, files.as_slice(), n_ids)
}

fn dictionaries(alloc: Global, files: &[SetFile]) -> Result<Vec<&SetFile>, NoMemory>
    ensures { IfOk result (λ found. pointed found.items ≡ files_of Dictionary files.now) }
{
    let found = files
        .iter()
        .filter(|file| has_role(file, Role::Dictionary))
        .collect(alloc)?;
    Ok(found)
}

fn read_all(alloc: Global, files: &[&SetFile], n_ids: u32) -> Result<Vec<WordRow>, BuildError>
    requires few_ids { n_ids ≤ MOST_IDS }
    requires few_files { length files.now < 2 ^ 32 }
    ensures { Gives (λ rows. rows.items) result (words_after n_ids [] 1 (pointed files.now)) }
{
    let mut rows = Vec::new(alloc);
    for (index, file) in files.iter().enumerate() {
        let read = dict_rows::read(alloc, file.bytes.as_slice(), n_ids, rows);
        rows = located(Role::Dictionary, index as u32 + 1, read)?;
    }
    Ok(rows)
}
