ghost use Rattle.std.specs.Prelude.{◌≡◌, ◌≤◌, IfOk, length, map, pos, slice_index_or};
ghost use Rattle.mz_base.specs.declared.data.TheConstants.{MOST_WORDS};
ghost use Rattle.mz_base.specs.declared.data.WordRow.{WordRow};
ghost use Rattle.dict_index.specs.Cheapest.{indexed_rows};

use crate::WordIndex;
use crate::guesses::Guesses;
use crate::heads::{Head, heads_of};
use crate::look_up::{cheapest_from, hits_from, rows_from};
use crate::order::places_in_order;
use crate::packed::Packed;
use mz_base::{Hit, NoMemory, PricedRow, WordRow};
use std::alloc::Global;
use std::marker::Model;

/// The rows in the order of their readings, seen as the readings and the costs in the order of the rows.
#[derive(Drop)]
pub struct SortedIndex {
    texts: Packed,
    /// The heads of the readings, in the order of the readings.
    heads: Vec<Head>,
    /// The cost of the row of each head, apart from it: a search for the cheapest reads costs alone.
    costs: Vec<i32>,
    guesses: Guesses,
}

impl Model for SortedIndex {
    ghost use Rattle.std.specs.Prelude.{length};
    ghost use Rattle.dict_index.specs.Cheapest.{AreBeside, Indexed, row_costs};
    ghost use Rattle.dict_index.specs.Heads.{AreInOrder};

    ghost Value = { Indexed };

    ghost view = { λ x. record { readings = x.texts; costs = row_costs (length x.texts) x.heads.items x.costs.items } };

    ghost invariant = { λ x. AreInOrder x.texts x.heads.items × AreBeside (length x.texts) x.heads.items x.costs.items };
}

impl SortedIndex {
    pub fn build(alloc: Global, rows: &[WordRow]) -> Result<SortedIndex, NoMemory>
        requires { length rows.now ≤ MOST_WORDS }
        ensures { IfOk result (λ index. index ≡ indexed_rows rows.now) }
    {
        let texts = Packed::of_readings(alloc, rows)?;
        let places = places_in_order(alloc, &texts)?;
        let heads = heads_of(alloc, &texts, places.as_slice())?;
        let costs = costs_of(alloc, rows, places.as_slice())?;
        let guesses = Guesses::of(alloc, &texts, heads.as_slice())?;
        Ok(SortedIndex {
            texts,
            heads,
            costs,
            guesses,
        })
    }
}

/// The costs of the rows at these places.
fn costs_of(alloc: Global, rows: &[WordRow], places: &[u32]) -> Result<Vec<i32>, NoMemory>
    ensures { IfOk result (λ costs. costs.items ≡ map (λ place. slice_index_or (map (λ (row : WordRow). row.cost) rows.now) place (pos 0)) places.now) }
{
    let mut costs = Vec::with_capacity(alloc, places.len())?;
    for place in places {
        costs.push(cost_at(rows, *place))?;
    }
    Ok(costs)
}

/// The cost of the row at this place, and nothing past the last.
fn cost_at(rows: &[WordRow], place: u32) -> i32
    ensures { result ≡ slice_index_or (map (λ (row : WordRow). row.cost) rows.now) place (pos 0) }
{
    match rows.get(place as usize) {
        Some(row) => row.cost,
        None => 0,
    }
}

impl WordIndex for SortedIndex {
    ghost readings = { λ x. x.readings };

    ghost costs = { λ x. x.costs };

    fn words_at(&self, alloc: Global, key: &[char], begin: usize) -> Result<Vec<Hit>, NoMemory> {
        hits_from(
            alloc,
            &self.texts,
            self.heads.as_slice(),
            &self.guesses,
            key,
            begin,
        )
    }

    fn words_with_prefix(&self, alloc: Global, prefix: &[char]) -> Result<Vec<u32>, NoMemory> {
        rows_from(alloc, &self.texts, self.heads.as_slice(), prefix)
    }

    fn cheapest_with_prefix(
        &self,
        alloc: Global,
        prefix: &[char],
        most: usize,
    ) -> Result<Vec<PricedRow>, NoMemory> {
        cheapest_from(
            alloc,
            &self.texts,
            self.heads.as_slice(),
            self.costs.as_slice(),
            prefix,
            most,
        )
    }
}
