ghost use Rattle.std.specs.Prelude.{◌≡◌, ℕ, ◌-◌, ◌<◌, ◌*◌, pos, ◌+ℤ◌, ◌-ℤ◌, length, slice_index_or};
ghost use Rattle.mz_base.specs.Data.{IsCost};
ghost use Rattle.conversion_meaning.specs.Bounds.{IsWithin};
ghost use Rattle.conversion_meaning.specs.Lattices.{entry};
ghost use Rattle.viterbi.specs.Table.{most_reached};
ghost use Rattle.nbest.specs.Searches.{AreThere, first_of};

use crate::costs::Costs;
use crate::tail::Tail;
use mz_base::Entry;

/// Where a tail is joined to what comes before it.
#[derive(Clone, Copy)]
pub struct Join {
    /// Where the tail begins.
    pub begin: u16,
    /// The left id that the entry before it is connected to.
    pub lid: u16,
    /// What the tail costs, without the connection to the entry before it.
    pub rest: i64,
}

/// The join of a tail, by the least costs of the entries.
pub fn join_of(entries: &[Entry], costs: &Costs, tail: &Tail) -> Join
    requires there { AreThere entries.now tail.now.ordinals }
    requires count { length costs.now ≡ length entries.now }
    requires estimate { IsWithin (3 * most_reached) tail.now.estimate }
    requires cost { IsWithin most_reached (slice_index_or costs.now (first_of tail.now.ordinals) (pos 0)) }
    requires own { IsCost (entry entries.now (first_of tail.now.ordinals)).cost }
    ensures begin { result.begin ≡ (entry entries.now (first_of tail.now.ordinals)).begin }
    ensures lid { result.lid ≡ (entry entries.now (first_of tail.now.ordinals)).lid }
    ensures rest { result.rest ≡ (tail.now.estimate -ℤ slice_index_or costs.now (first_of tail.now.ordinals) (pos 0)) +ℤ (entry entries.now (first_of tail.now.ordinals)).cost }
{
    let first = first_of(entries, tail);
    let entry = &entries[first as usize];
    Join {
        begin: entry.begin,
        lid: entry.lid,
        rest: tail.estimate - costs.at(first) + i64::from(entry.cost),
    }
}

/// Where a tail begins.
pub fn begin_of(entries: &[Entry], tail: &Tail) -> u16
    requires { AreThere entries.now tail.now.ordinals }
    ensures { result ≡ (entry entries.now (first_of tail.now.ordinals)).begin }
{
    entries[first_of(entries, tail) as usize].begin
}

/// The first entry of a tail.
fn first_of(entries: &[Entry], tail: &Tail) -> u32
    requires { AreThere entries.now tail.now.ordinals }
    ensures is { result ≡ first_of tail.now.ordinals }
    ensures inside { result < length entries.now }
{
    tail.ordinals.first()
}
