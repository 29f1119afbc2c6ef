ghost use Rattle.std.specs.Prelude.{◌≡◌, ◌≤◌, AllPairs, length};
ghost use Rattle.conversion_meaning.specs.Lattices.{AreInOrder, EndBefore, IsByEnd, IsCursor, entry};
ghost use Rattle.lattice.specs.Begins.{IsBegin};

use mz_base::Entry;

/// The first place in the order of ends whose entry does not end before the position; all places before `cursor` are known
/// to end before it. Who asks for rising positions walks the order once.
pub fn first_from(entries: &[Entry], by_end: &[u32], cursor: usize, position: u16) -> usize
    requires order { IsByEnd entries.now by_end.now }
    requires within { cursor ≤ length by_end.now }
    requires before { EndBefore entries.now by_end.now position cursor }
    ensures { IsCursor entries.now by_end.now position result }
{
    for place in cursor..by_end.len() {
        if entries[by_end[place] as usize].end >= position {
            return place;
        }
    }
    by_end.len()
}

/// The same place, found by halving: for who asks for one position.
pub fn first_at(entries: &[Entry], by_end: &[u32], position: u16) -> usize
    requires { IsByEnd entries.now by_end.now }
    ensures { IsCursor entries.now by_end.now position result }
{
    by_end.partition_point(|ordinal| end_of(entries, *ordinal) < position)
}

fn end_of(entries: &[Entry], ordinal: u32) -> u16
    ensures { result ≡ (entry entries.now ordinal).end }
{
    match entries.get(ordinal as usize) {
        Some(entry) => entry.end,
        None => 0,
    }
}

/// The first ordinal whose entry does not begin before the position, found by halving.
pub fn first_beginning_at(entries: &[Entry], position: u16) -> usize
    requires { AllPairs AreInOrder entries.now }
    ensures { IsBegin entries.now position result }
{
    entries.partition_point(|entry| entry.begin < position)
}
