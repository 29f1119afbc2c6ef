ghost use Rattle.std.specs.Prelude.{◌≡◌, IfOk, OnOk, List, ℕ};
ghost use Rattle.mz_base.specs.ByName.{latest_by_name, name_before, same_name};
ghost use Rattle.mz_base.specs.Latest.{latest};
ghost use Rattle.mz_base.specs.Ordered.{in_order};

use crate::{NoMemory, PosRow, Rule};
use std::alloc::Global;
use std::collections::HashSet;

/// A row that a text names, and that a later row of this name repeats.
pub trait Named {
    ghost name: { Self → List ℕ };

    fn name(&self) -> &[char]
        ensures { result.now ≡ name self.now };
}

impl Named for Rule {
    ghost name = { λ rule. rule.input };

    fn name(&self) -> &[char] {
        self.input.as_chars()
    }
}

impl Named for PosRow {
    ghost name = { λ row. row.name };

    fn name(&self) -> &[char] {
        self.name.as_chars()
    }
}

/// The rows whose name no later row has, in the order of their names.
pub fn latest_by_name<T: Named + Drop>(alloc: Global, rows: Vec<T>) -> Result<Vec<T>, NoMemory>
    ensures { IfOk result (λ kept. kept.items ≡ latest_by_name T.name rows.items) }
{
    let mut kept = keep_latest(alloc, rows)?;
    sort_by_name(&mut kept)?;
    Ok(kept)
}

/// The rows whose name no later row has, in their order.
fn keep_latest<T: Named + Drop>(alloc: Global, rows: Vec<T>) -> Result<Vec<T>, NoMemory>
    ensures { IfOk result (λ kept. kept.items ≡ latest (same_name T.name) rows.items) }
{
    let mut kept = Vec::new(alloc);
    let mut seen = HashSet::new(alloc);
    let mut left = rows;
    while let Some(row) = left.pop() {
        let name = Vec::from_slice(alloc, row.name())?;
        let is_new = seen.insert(name)?;
        if is_new {
            kept.push(row)?;
        }
    }
    kept.reverse();
    Ok(kept)
}

/// Puts the rows into the order of their names.
fn sort_by_name<T: Named>(rows: &mut Vec<T>) -> Result<(), NoMemory>
    ensures { OnOk result (rows.new.items ≡ in_order (name_before T.name) rows.old.items) }
{
    rows.sort_by(|row, other| row.name().cmp(other.name()))?;
    Ok(())
}
