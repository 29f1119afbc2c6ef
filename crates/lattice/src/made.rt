ghost use Rattle.std.specs.Prelude.{◌≡◌, IfOk};
ghost use Rattle.conversion_meaning.specs.Lattices.{AreBounds, IsKey, IsLatticeOf, IsWellFormed};

use crate::by_end::by_end;
use crate::entries::entries_of;
use mz_base::{DataSet, Lattice, NoMemory, Seq, UserWords};
use std::alloc::Global;

/// The lattice of a key, with no entry across a bound.
pub fn build<D: DataSet, U: UserWords>(
    alloc: Global,
    set: &D,
    user: &U,
    key: &[char],
    bounds: &[u16],
) -> Result<Lattice, NoMemory>
    requires key { IsKey key.now }
    requires bounds { AreBounds key.now bounds.now }
    ensures key { IfOk result (λ l. l.key ≡ key.now) }
    ensures bounds { IfOk result (λ l. l.bounds ≡ bounds.now) }
    ensures made { IfOk result (IsLatticeOf (D.lists set.now) (U.rows user.now)) }
    ensures well_formed { IfOk result (IsWellFormed (D.lists set.now)) }
{
    let entries = entries_of(alloc, set, user, key, bounds)?;
    let by_end = by_end(alloc, entries.as_slice(), key.len() as u16)?;
    Ok(Lattice {
        key: Seq::from_vec(Vec::from_slice(alloc, key)?),
        bounds: Seq::from_vec(Vec::from_slice(alloc, bounds)?),
        entries: Seq::from_vec(entries),
        by_end: Seq::from_vec(by_end),
    })
}
