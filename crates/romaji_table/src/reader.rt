ghost use Rattle.std.specs.Prelude.{◌≡◌, IfOk};
ghost use Rattle.std.specs.List.{AllByRecursion};
ghost use Rattle.mz_base.specs.Answers.{Gives};
ghost use Rattle.mz_base.specs.Kana.{IsRule};
ghost use Rattle.romaji_table.specs.Inputs.{latest_by_input};
ghost use Rattle.romaji_table.specs.Rows.{romaji_rows};

use crate::{RuleReader, Table};
use mz_base::{NoMemory, ReadError, Rule, latest_by_name, read_rows};
use std::alloc::Global;

/// Reads a romaji file.
pub fn read(alloc: Global, bytes: &[u8]) -> Result<Table, ReadError>
    ensures { Gives (λ table. table) result (romaji_rows bytes.now) }
{
    let rows = read_rows(alloc, &mut RuleReader, Vec::new(alloc), bytes)?;
    Ok(table_of(alloc, rows)?)
}

fn table_of(alloc: Global, rows: Vec<Rule>) -> Result<Table, NoMemory>
    requires { AllByRecursion IsRule rows.items }
    ensures { IfOk result (λ table. table ≡ latest_by_input rows.items) }
{
    let kept = latest_by_name(alloc, rows)?;
    Table::from_rows(alloc, kept)
}
