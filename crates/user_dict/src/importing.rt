ghost use Rattle.std.specs.Prelude.{◌≡◌, IfOk};
ghost use Rattle.user_dict.specs.Answers.{Gives};
ghost use Rattle.user_dict.specs.Dictionaries.{taken_in};
ghost use Rattle.user_dict.specs.Kept.{IsReader, taken_by};
ghost use Rattle.user_dict.specs.Rows.{taken_of};

use crate::dictionary::UserDict;
use crate::error::ImportError;
use crate::reader::{Reader, rows_of};
use mz_base::FileLines;
use std::alloc::Global;

/// The dictionary of a file, or the first line that refuses it.
pub fn import(alloc: Global, bytes: &[u8]) -> Result<UserDict, ImportError>
    ensures { Gives taken_in result (taken_of bytes.now) }
{
    let Reader {
        rows,
        counts,
        skipped,
    } = read_lines(alloc, bytes)?;
    drop(counts);
    let rows = rows_of(alloc, rows)?;
    Ok(UserDict::of(alloc, rows, skipped)?)
}

#[tactic(auto, unfolding(crate::specs::Rows::take_lines))]
fn read_lines(alloc: Global, bytes: &[u8]) -> Result<Reader, ImportError>
    ensures given { Gives taken_by result (taken_of bytes.now) }
    ensures kept { IfOk result IsReader }
{
    let mut reader = Reader::new(alloc);
    let mut number = 0;
    for line in FileLines::of(bytes) {
        number += 1;
        reader.take_line(alloc, number, line)?;
    }
    Ok(reader)
}
