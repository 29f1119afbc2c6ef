ghost use Rattle.std.specs.Prelude.{◌≡◌, ◌<◌, ◌≤◌, length};
ghost use Rattle.conversion_meaning.specs.Lattices.{IsByEnd, IsCursor};
ghost use Rattle.cert_check.specs.Claims.{AreReady};
ghost use Rattle.cert_check.specs.Edges.{AreOrdinals, FirstEdge, FirstInto, FirstSource, ordinal_at};
ghost use Rattle.cert_check.specs.Walks.{AreSound};

use crate::edge::{Edge, Target, is_met, meets_start, nth_source, nth_target};
use lattice::first_from;
use mz_base::{DataSet, Entry, Span};

/// The first edge that is not met, by target and then by source. Each pair that touches is looked at once.
pub fn unmet_edge<D: DataSet>(
    set: &D,
    entries: &[Entry],
    by_end: &[u32],
    potentials: &[i64],
    span: &Span,
    end: &Target,
) -> Option<Edge>
    requires ready { AreReady (D.lists set.now) entries.now by_end.now span.now end.now }
    requires counted { length potentials.now ≡ length entries.now }
    ensures { FirstEdge (D.lists set.now) entries.now span.now potentials.now end.now result }
{
    let mut cursor = 0;
    for rank in 0..entries.len() + 1 {
        let target = nth_target(entries, potentials, end, rank);
        cursor = first_from(entries, by_end, cursor, target.begin);
        if let Some(from) = unmet_into(set, entries, by_end, potentials, span, cursor, &target) {
            let to = nth_ordinal(by_end, rank);
            return Some(Edge { from, to });
        }
    }
    None
}

/// The first source, the start before the entries, that touches the target and does not meet it.
fn unmet_into<D: DataSet>(
    set: &D,
    entries: &[Entry],
    by_end: &[u32],
    potentials: &[i64],
    span: &Span,
    cursor: usize,
    target: &Target,
) -> Option<Option<u32>>
    requires order { IsByEnd entries.now by_end.now }
    requires at { IsCursor entries.now by_end.now target.now.begin cursor }
    requires counted { length potentials.now ≡ length entries.now }
    requires sound { AreSound (D.lists set.now) entries.now }
    requires right { span.now.left < (D.lists set.now).ids }
    requires left { target.now.lid < (D.lists set.now).ids }
    ensures { FirstInto (D.lists set.now) entries.now span.now potentials.now target.now result }
{
    if !meets_start(set, span, target) {
        return Some(None);
    }
    match unmet_source(set, entries, by_end, potentials, cursor, target) {
        Some(ordinal) => Some(Some(ordinal)),
        None => None,
    }
}

/// The first entry that touches the target and does not meet it. The cursor is the one of the target's begin.
fn unmet_source<D: DataSet>(
    set: &D,
    entries: &[Entry],
    by_end: &[u32],
    potentials: &[i64],
    cursor: usize,
    target: &Target,
) -> Option<u32>
    requires order { IsByEnd entries.now by_end.now }
    requires at { IsCursor entries.now by_end.now target.now.begin cursor }
    requires counted { length potentials.now ≡ length entries.now }
    requires sound { AreSound (D.lists set.now) entries.now }
    requires left { target.now.lid < (D.lists set.now).ids }
    ensures { FirstSource (D.lists set.now) entries.now potentials.now target.now result }
{
    for place in cursor..by_end.len() {
        let ordinal = by_end[place];
        if entries[ordinal as usize].end != target.begin {
            return None;
        }
        if !is_met(set, &nth_source(entries, potentials, ordinal), target) {
            return Some(ordinal);
        }
    }
    None
}

/// The ordinal of the target of a rank, none at the end.
fn nth_ordinal(by_end: &[u32], rank: usize) -> Option<u32>
    requires { AreOrdinals by_end.now }
    ensures { result ≡ ordinal_at (length by_end.now) rank }
{
    if rank < by_end.len() {
        Some(rank as u32)
    } else {
        None
    }
}
