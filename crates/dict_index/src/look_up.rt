ghost use Rattle.std.specs.Prelude.{◌≡◌, ◌++◌, ◌<◌, ◌≤◌, IfOk, OnOk, length, map, slice_range};
ghost use Rattle.mz_base.specs.Data.{rows_with_prefix, hits_at};
ghost use Rattle.mz_base.specs.declared.data.Hit.{Hit};
ghost use Rattle.mz_base.specs.declared.data.TheConstants.{MOST_LOOKED_UP};
ghost use Rattle.dict_index.specs.Cheapest.{AreBeside, cheapest, row_costs};
ghost use Rattle.dict_index.specs.Heads.{AreInOrder, places_in};

use crate::cheapest::cheapest_of;
use crate::guesses::{Guesses, longer};
use crate::heads::{Head, places_in};
use crate::order::{Stretch, block, exact, in_span, narrowed};
use crate::packed::Packed;
use mz_base::{Hit, MOST_LOOKED_UP, NoMemory, PricedRow};
use std::alloc::Global;

/// How many words one place of a key may begin with before a list of them grows.
const HITS_AT_FIRST: usize = 32;

/// The places of the texts that stand in the key from here on, by end and then by place.
pub fn hits_from(
    alloc: Global,
    texts: &Packed,
    heads: &[Head],
    guesses: &Guesses,
    key: &[char],
    begin: usize,
) -> Result<Vec<Hit>, NoMemory>
    requires index { AreInOrder texts.now heads.now }
    requires inside { begin < length key.now }
    requires short { length key.now ≤ MOST_LOOKED_UP }
    ensures { IfOk result (λ hits. hits.items ≡ hits_at texts.now key.now begin) }
{
    let mut hits = Vec::with_capacity(alloc, HITS_AT_FIRST)?;
    // The heads whose texts begin with what of the key is passed so far.
    let mut begun = Stretch { start: 0, heads };
    let mut hash = 0;
    for end in begin + 1..key.len() + 1 {
        let part = part(key, begin, end);
        hash = longer(hash, key[end - 1]);
        begun = narrowed(texts, begun, part, guesses.at(hash));
        if begun.heads.is_empty() {
            break;
        }
        let found = exact(texts, begun.heads, part);
        add_hits(&mut hits, end as u16, found)?;
    }
    Ok(hits)
}

/// The places of the texts that begin with the prefix, rising.
pub fn rows_from(
    alloc: Global,
    texts: &Packed,
    heads: &[Head],
    prefix: &[char],
) -> Result<Vec<u32>, NoMemory>
    requires { AreInOrder texts.now heads.now }
    ensures { IfOk result (λ rows. rows.items ≡ rows_with_prefix texts.now prefix.now) }
{
    let found = block(texts, heads, prefix.len(), prefix);
    let mut rows = places_in(alloc, in_span(heads, found))?;
    rows.sort()?;
    Ok(rows)
}

/// The first so many of the rows whose text begins with the prefix, by cost and then by row.
pub fn cheapest_from(
    alloc: Global,
    texts: &Packed,
    heads: &[Head],
    costs: &[i32],
    prefix: &[char],
    most: usize,
) -> Result<Vec<PricedRow>, NoMemory>
    requires index { AreInOrder texts.now heads.now }
    requires costs { AreBeside (length texts.now) heads.now costs.now }
    ensures { IfOk result (λ found. found.items ≡ cheapest (row_costs (length texts.now) heads.now costs.now) most (rows_with_prefix texts.now prefix.now)) }
{
    let span = block(texts, heads, prefix.len(), prefix);
    cheapest_of(alloc, in_span(heads, span), in_span(costs, span), most)
}

/// The characters of the key from one place to another.
fn part(key: &[char], begin: usize, end: usize) -> &[char]
    requires ordered { begin ≤ end }
    requires inside { end ≤ length key.now }
    ensures { result.now ≡ slice_range key.now begin end }
{
    let (front, _) = key.split_at(end);
    let (_, part) = front.split_at(begin);
    part
}

fn add_hits(hits: &mut Vec<Hit>, end: u16, found: &[Head]) -> Result<(), NoMemory>
    ensures { OnOk result (hits.new.items ≡ hits.old.items ++ map (λ row. record { end = end; row = row }) (places_in found.now)) }
{
    for head in found {
        hits.push(Hit {
            end,
            row: head.place,
        })?;
    }
    Ok(())
}
