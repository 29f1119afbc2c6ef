ghost use Rattle.std.specs.Prelude.{◌≡◌, ◌<◌, ◌≤◌, ◌↔◌, IsTrue, true, false, length};
ghost use Rattle.cert_check.specs.Edges.{IsMetBy, IsStartMet, IsStartUnmet, source_at, target_at};

use mz_base::{DataSet, Entry, Span};

/// Where an edge comes from: the start or an entry.
#[derive(Clone, Copy)]
pub struct Source {
    pub rid: u16,
    pub potential: i64,
}

/// Where an edge leads: to an entry or the end.
#[derive(Clone, Copy)]
pub struct Target {
    pub begin: u16,
    pub lid: u16,
    pub cost: i32,
    pub potential: i64,
}

/// An edge by ordinals; none is the start or the end.
#[derive(Clone, Copy)]
pub struct Edge {
    pub from: Option<u32>,
    pub to: Option<u32>,
}

/// Whether the target's potential is at most the source's and the cost of the edge.
pub fn is_met<D: DataSet>(set: &D, source: &Source, target: &Target) -> bool
    requires right { source.now.rid < (D.lists set.now).ids }
    requires left { target.now.lid < (D.lists set.now).ids }
    ensures { IsTrue result ↔ IsMetBy (D.lists set.now) source.now target.now }
{
    // Potentials are whatever the certificate says, so 64 bits may not hold the sum.
    let connection = set.conn(source.rid, target.lid) as i128;
    target.potential as i128 <= source.potential as i128 + connection + target.cost as i128
}

/// Whether the start of the span meets the target, where they touch.
pub fn meets_start<D: DataSet>(set: &D, span: &Span, target: &Target) -> bool
    requires right { span.now.left < (D.lists set.now).ids }
    requires left { target.now.lid < (D.lists set.now).ids }
    ensures met { result ≡ true → IsStartMet (D.lists set.now) span.now target.now }
    ensures unmet { result ≡ false → IsStartUnmet (D.lists set.now) span.now target.now }
{
    let start = Source {
        rid: span.left,
        potential: 0,
    };
    target.begin != span.begin || is_met(set, &start, target)
}

pub fn nth_source(entries: &[Entry], potentials: &[i64], ordinal: u32) -> Source
    requires inside { ordinal < length entries.now }
    requires counted { length potentials.now ≡ length entries.now }
    ensures { result ≡ source_at entries.now potentials.now ordinal }
{
    Source {
        rid: entries[ordinal as usize].rid,
        potential: potentials[ordinal as usize],
    }
}

/// The target of a rank: the entries by their ordinals, and then the end.
pub fn nth_target(entries: &[Entry], potentials: &[i64], end: &Target, rank: usize) -> Target
    requires { length potentials.now ≡ length entries.now }
    ensures { result ≡ target_at entries.now potentials.now end.now rank }
{
    if rank >= entries.len() {
        return *end;
    }
    let entry = entries[rank];
    Target {
        begin: entry.begin,
        lid: entry.lid,
        cost: entry.cost,
        potential: potentials[rank],
    }
}
