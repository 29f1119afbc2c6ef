//! Costs by the other id first.
ghost use Rattle.std.specs.Prelude.{◌≡◌, ◌<◌, IfOk, length, true};
ghost use Rattle.conn_matrix.specs.Columns.{across, turned};
ghost use Rattle.conn_matrix.specs.Costs.{IsSquare, are_small};

use mz_base::NoMemory;
use std::alloc::Global;

/// The costs of a square by left id and then by right id, where they are numbers of 16 bits and go by right id first.
pub fn columns_of(alloc: Global, size: u32, costs: &[i32]) -> Result<Vec<i16>, NoMemory>
    requires square { IsSquare size costs.now }
    requires small { are_small costs.now ≡ true }
    ensures { IfOk result (λ columns. columns.items ≡ turned size costs.now) }
{
    let mut columns = Vec::with_capacity(alloc, costs.len())?;
    for place in 0..costs.len() {
        columns.push(small_across(size as usize, costs, place))?;
    }
    Ok(columns)
}

/// The costs of a square by right id and then by left id, where they go by left id first.
pub fn rows_from(alloc: Global, size: u32, columns: &[i16]) -> Result<Vec<i32>, NoMemory>
    requires { IsSquare size columns.now }
    ensures { IfOk result (λ rows. rows.items ≡ turned size columns.now) }
{
    let mut rows = Vec::with_capacity(alloc, columns.len())?;
    for place in 0..columns.len() {
        rows.push(wide_across(size as usize, columns, place))?;
    }
    Ok(rows)
}

fn small_across(size: usize, costs: &[i32], place: usize) -> i16
    requires square { IsSquare size costs.now }
    requires small { are_small costs.now ≡ true }
    requires inside { place < length costs.now }
    ensures { result ≡ across size costs.now place }
{
    costs[place % size * size + place / size] as i16
}

fn wide_across(size: usize, columns: &[i16], place: usize) -> i32
    requires square { IsSquare size columns.now }
    requires inside { place < length columns.now }
    ensures { result ≡ across size columns.now place }
{
    i32::from(columns[place % size * size + place / size])
}
