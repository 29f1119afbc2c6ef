ghost use Rattle.std.specs.Prelude.{◌≡◌, ℕ, ℤ, ◌<◌, ◌≤◌, List, length, IfOk};
ghost use Rattle.mz_base.specs.Data.{rows_with_prefix, hits_at};
ghost use Rattle.mz_base.specs.declared.data.TheConstants.{MOST_LOOKED_UP};
ghost use Rattle.dict_index.specs.Cheapest.{cheapest};

use mz_base::{Hit, MOST_LOOKED_UP, NoMemory, PricedRow};
use std::alloc::Global;

/// Word rows by their readings.
pub trait WordIndex {
    /// The readings of the rows, in the order of the rows.
    ghost readings: { Self → List (List ℕ) };

    /// The costs of the rows, in the order of the rows.
    ghost costs: { Self → List ℤ };

    /// The rows whose reading stands in the key from here on, by end and then by row.
    fn words_at(&self, alloc: Global, key: &[char], begin: usize) -> Result<Vec<Hit>, NoMemory>
        requires inside { begin < length key.now }
        requires short { length key.now ≤ MOST_LOOKED_UP }
        ensures { IfOk result (λ hits. hits.items ≡ hits_at (readings self.now) key.now begin) };

    /// The rows whose reading begins with the prefix, rising.
    fn words_with_prefix(&self, alloc: Global, prefix: &[char]) -> Result<Vec<u32>, NoMemory>
        ensures { IfOk result (λ rows. rows.items ≡ rows_with_prefix (readings self.now) prefix.now) };

    /// The first so many rows whose reading begins with the prefix, by cost and then by row.
    fn cheapest_with_prefix(
        &self,
        alloc: Global,
        prefix: &[char],
        most: usize,
    ) -> Result<Vec<PricedRow>, NoMemory>
        ensures { IfOk result (λ found. found.items ≡ cheapest (costs self.now) most (rows_with_prefix (readings self.now) prefix.now)) };
}
