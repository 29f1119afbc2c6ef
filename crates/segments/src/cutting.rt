ghost use Rattle.std.specs.Prelude.{◌≡◌, ◌<◌, ◌++◌, ◌&&◌, All, IfOk, OnOk, filter, length, nat_lt, not};
ghost use Rattle.conversion_meaning.specs.Lattices.{IsWellFormed, entry};
ghost use Rattle.conversion_meaning.specs.Paths.{IsPathOver, whole};
ghost use Rattle.conversion_meaning.specs.Segments.{breaks, cut, goes_on, last_bound, parts_from, segment_ends};

use mz_base::{DataSet, Lattice, NoMemory};
use std::alloc::Global;

/// The segments of a path over the whole key, as positions where they begin and end.
pub fn cut<D: DataSet>(
    alloc: Global,
    set: &D,
    lattice: &Lattice,
    path: &[u32],
) -> Result<Vec<(u16, u16)>, NoMemory>
    requires well { IsWellFormed (D.lists set.now) lattice.now }
    requires joined { IsPathOver lattice.now.entries (whole lattice.now 0) path.now }
    ensures { IfOk result (λ parts. parts.items ≡ cut (D.lists set.now) lattice.now.entries lattice.now.bounds path.now) }
{
    let ends = segment_ends(alloc, set, lattice, path)?;
    parts_between(alloc, ends.as_slice())
}

/// Where the segments end: at the bounds, and past the last one where the path breaks.
fn segment_ends<D: DataSet>(
    alloc: Global,
    set: &D,
    lattice: &Lattice,
    path: &[u32],
) -> Result<Vec<u16>, NoMemory>
    requires well { IsWellFormed (D.lists set.now) lattice.now }
    requires there { All (λ o. o < length lattice.now.entries) path.now }
    ensures { IfOk result (λ ends. ends.items ≡ segment_ends (D.lists set.now) lattice.now.entries lattice.now.bounds path.now) }
{
    let bounds = lattice.bounds.as_slice();
    let mut ends = Vec::from_slice(alloc, bounds)?;
    push_breaks(&mut ends, set, lattice, path, last_bound(bounds))?;
    Ok(ends)
}

fn last_bound(bounds: &[u16]) -> u16
    ensures { result ≡ last_bound bounds.now }
{
    match bounds.last() {
        Some(bound) => *bound,
        None => 0,
    }
}

/// Adds the breaks of the path past a position.
fn push_breaks<D: DataSet>(
    ends: &mut Vec<u16>,
    set: &D,
    lattice: &Lattice,
    path: &[u32],
    last: u16,
) -> Result<(), NoMemory>
    requires well { IsWellFormed (D.lists set.now) lattice.now }
    requires there { All (λ o. o < length lattice.now.entries) path.now }
    ensures { OnOk result (ends.new.items ≡ ends.old.items ++ filter (nat_lt last) (breaks (D.lists set.now) lattice.now.entries path.now)) }
{
    for (place, ordinal) in path.iter().enumerate() {
        let (_, rest) = path.split_at(place + 1);
        if breaks_past(set, lattice, *ordinal, rest, last) {
            ends.push(lattice.entries.as_slice()[*ordinal as usize].end)?;
        }
    }
    Ok(())
}

/// Whether an entry ends past a position, and the path does not go on in its segment.
fn breaks_past<D: DataSet>(
    set: &D,
    lattice: &Lattice,
    ordinal: u32,
    rest: &[u32],
    last: u16,
) -> bool
    requires well { IsWellFormed (D.lists set.now) lattice.now }
    requires inside { ordinal < length lattice.now.entries }
    requires there { All (λ o. o < length lattice.now.entries) rest.now }
    ensures { result ≡ (nat_lt last (entry lattice.now.entries ordinal).end && not (goes_on (D.lists set.now) lattice.now.entries ordinal rest.now)) }
{
    last < lattice.entries.as_slice()[ordinal as usize].end && !goes_on(set, lattice, ordinal, rest)
}

/// Whether the rest of the path goes on in the segment of an entry.
fn goes_on<D: DataSet>(set: &D, lattice: &Lattice, ordinal: u32, rest: &[u32]) -> bool
    requires well { IsWellFormed (D.lists set.now) lattice.now }
    requires inside { ordinal < length lattice.now.entries }
    requires there { All (λ o. o < length lattice.now.entries) rest.now }
    ensures { result ≡ goes_on (D.lists set.now) lattice.now.entries ordinal rest.now }
{
    let entries = lattice.entries.as_slice();
    match rest.first() {
        Some(next) => set.joins(entries[ordinal as usize].rid, entries[*next as usize].lid),
        None => false,
    }
}

/// The parts of a key that end here.
fn parts_between(alloc: Global, ends: &[u16]) -> Result<Vec<(u16, u16)>, NoMemory>
    ensures { IfOk result (λ parts. parts.items ≡ parts_from 0 ends.now) }
{
    let mut parts = Vec::with_capacity(alloc, ends.len())?;
    let mut begin = 0;
    for end in ends {
        parts.push((begin, *end))?;
        begin = *end;
    }
    Ok(parts)
}
