//! One list of costs, in the form that suits them.
ghost use Rattle.std.specs.Prelude.{◌≡◌, ◌*◌, IfOk, length};
ghost use Rattle.std.specs.List.{list_all};
ghost use Rattle.conn_matrix.specs.Columns.{rows_of, is_small_form};
ghost use Rattle.conn_matrix.specs.Costs.{IsSquare, are_small, fits_16_bits};

use crate::columns::columns_of;
use mz_base::NoMemory;
use std::alloc::Global;

/// The costs of a square.
#[derive(Drop)]
pub enum KeptCosts {
    /// By left id and then by right id, where all are numbers of 16 bits. A best path asks for the costs of many right
    /// ids with one left id: here these stand together, in half the bytes.
    Small(Vec<i16>),
    /// By right id and then by left id.
    Wide(Vec<i32>),
}

/// Keeps the costs, which come by right id and then by left id. While it works both lists may be there.
pub fn kept_of(alloc: Global, size: u32, costs: Vec<i32>) -> Result<KeptCosts, NoMemory>
    requires { IsSquare size costs.items }
    ensures rows { IfOk result (λ kept. rows_of size kept ≡ costs.items) }
    ensures form { IfOk result (λ kept. is_small_form kept ≡ are_small costs.items) }
{
    if are_small(&costs) {
        Ok(KeptCosts::Small(columns_of(alloc, size, &costs)?))
    } else {
        Ok(KeptCosts::Wide(costs))
    }
}

fn are_small(costs: &[i32]) -> bool
    ensures { result ≡ are_small costs.now }
{
    costs.iter().all(|cost| fits_16_bits(*cost))
}

fn fits_16_bits(cost: i32) -> bool
    ensures { result ≡ fits_16_bits cost }
{
    i16::MIN as i32 <= cost && cost <= i16::MAX as i32
}
