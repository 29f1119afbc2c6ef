ghost use Rattle.std.specs.Prelude.{◌≡◌, ◌<◌, ◌≤◌, ◌∷◌, IfOk};
ghost use Rattle.mz_base.specs.Answers.{Gives};
ghost use Rattle.mz_base.specs.FileLines.{lines_left};
ghost use Rattle.mz_base.specs.Lines.{lines_of};
ghost use Rattle.conn_matrix.specs.Costs.{IsSquare, are_small, bytes_of, cost_at, table_in, squared};

use crate::columns::rows_from;
use crate::kept::{KeptCosts, kept_of};
use crate::limits::MOST_BYTES;
use crate::reader::{read_costs, read_size};
use mz_base::{FaultKind, FileLines, MOST_IDS, NoMemory, ReadError};
use std::alloc::Global;
use std::marker::Model;

/// The costs of connections: of each right id of the word before with each left id of the word after.
#[derive(Drop)]
pub struct Matrix {
    size: u32,
    kept: KeptCosts,
}

impl Model for Matrix {
    ghost use Rattle.conn_matrix.specs.Columns.{IsKept, rows_of};
    ghost use Rattle.conn_matrix.specs.Costs.{CostTable};

    ghost Value = { CostTable };

    ghost view = { λ m. record { size = m.size; costs = rows_of m.size m.kept } };

    ghost invariant = { λ m. IsKept m.size m.kept };
}

impl Matrix {
    /// Reads a connection file.
    pub fn read(alloc: Global, bytes: &[u8]) -> Result<Matrix, ReadError>
        ensures { Gives (λ matrix. matrix) result (table_in (lines_of bytes.now)) }
    {
        let mut lines = FileLines::of(bytes);
        match lines.next() {
            Some(first) => read_table(alloc, first, lines),
            None => Err(FaultKind::Size.into()),
        }
    }

    /// The matrix of these costs, by right id and then by left id.
    pub fn from_rows(alloc: Global, size: u32, costs: Vec<i32>) -> Result<Matrix, NoMemory>
        requires { IsSquare size costs.items }
        ensures { IfOk result (λ matrix. matrix ≡ record { size = size; costs = costs.items }) }
    {
        let kept = kept_of(alloc, size, costs)?;
        Ok(Matrix { size, kept })
    }

    /// The number of ids.
    pub fn size(&self) -> u32
        ensures { result ≡ self.now.size }
    {
        self.size
    }

    /// The cost of a word with the right id `r` before one with the left id `l`.
    pub fn cost(&self, r: u16, l: u16) -> i32
        requires right { r < self.now.size }
        requires left { l < self.now.size }
        ensures { result ≡ cost_at self.now r l }
    {
        let (r, l, size) = (r as usize, l as usize, self.size as usize);
        // The form is the same for all pairs, so that a loop over them need not ask each time.
        match &self.kept {
            KeptCosts::Small(columns) => i32::from(columns[l * size + r]),
            KeptCosts::Wide(costs) => costs[r * size + l],
        }
    }

    /// Whether the costs are kept as numbers of 16 bits.
    pub fn is_small(&self) -> bool
        ensures { result ≡ are_small self.now.costs }
    {
        matches!(self.kept, KeptCosts::Small(_))
    }

    /// The bytes that the costs take. What a list holds in reserve is not among them.
    pub fn bytes(&self) -> usize
        ensures all { result ≡ bytes_of self.now }
        ensures most { result ≤ MOST_BYTES }
    {
        match &self.kept {
            KeptCosts::Small(columns) => 2 * columns.len(),
            KeptCosts::Wide(costs) => 4 * costs.len(),
        }
    }

    /// A list of all costs, by right id and then by left id.
    pub fn rows(&self, alloc: Global) -> Result<Vec<i32>, NoMemory>
        ensures { IfOk result (λ rows. rows.items ≡ self.now.costs) }
    {
        match &self.kept {
            KeptCosts::Small(columns) => rows_from(alloc, self.size, columns),
            KeptCosts::Wide(costs) => Ok(Vec::from_slice(alloc, costs)?),
        }
    }
}

fn read_table(alloc: Global, first: &[u8], lines: FileLines<'_>) -> Result<Matrix, ReadError>
    ensures { Gives (λ matrix. matrix) result (table_in (first.now ∷ lines_left lines.entry)) }
{
    let size = read_size(first)?;
    let costs = read_costs(alloc, lines)?;
    squared(alloc, size, costs)
}

fn squared(alloc: Global, size: u32, costs: Vec<i32>) -> Result<Matrix, ReadError>
    requires { size ≤ MOST_IDS }
    ensures { Gives (λ matrix. matrix) result (squared size costs.items) }
{
    let wanted = size as u64 * size as u64;
    let found = costs.len() as u64;
    if found == wanted {
        Ok(Matrix::from_rows(alloc, size, costs)?)
    } else {
        Err(FaultKind::Count { wanted, found }.into())
    }
}
