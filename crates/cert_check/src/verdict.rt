ghost use Rattle.std.specs.Prelude.{OnOk};
ghost use Rattle.conversion_meaning.specs.Certificates.{claim_of};
ghost use Rattle.conversion_meaning.specs.Lattices.{IsWellFormed};
ghost use Rattle.conversion_meaning.specs.Verdicts.{IsVerdict};
ghost use Rattle.cert_check.specs.Claims.{AreReady, IsWhole, NoneIsCheaper, claimed};

use crate::edge::{Edge, Target};
use crate::edges::unmet_edge;
use crate::walk::walk;
use mz_base::{CertFault, Certificate, DataSet, Entry, Lattice, Span};

/// Whether the certificate shows for the whole key that no path costs less than its total; else the first of its
/// conditions that is false. The span is the whole key, between the ids on both sides of it. The certificate's bounds
/// are not looked at: the lattice has its own.
pub fn check<D: DataSet>(
    set: &D,
    lattice: &Lattice,
    span: &Span,
    certificate: &Certificate,
) -> Result<(), CertFault>
    requires well { IsWellFormed (D.lists set.now) lattice.now }
    requires whole { IsWhole (D.lists set.now) lattice.now span.now }
    ensures verdict { IsVerdict (claim_of (D.lists set.now) lattice.now.entries span.now certificate.now) result }
    ensures least { OnOk result (NoneIsCheaper (claim_of (D.lists set.now) lattice.now.entries span.now certificate.now)) }
{
    let end = Target {
        begin: span.end,
        lid: span.right,
        cost: 0,
        potential: certificate.total,
    };
    let entries = lattice.entries.as_slice();
    let by_end = lattice.by_end.as_slice();
    let path = certificate.path.as_slice();
    let potentials = certificate.potentials.as_slice();
    judge(set, entries, by_end, path, potentials, span, &end)
}

/// The verdict on a path and potentials; the end's potential is the total.
fn judge<D: DataSet>(
    set: &D,
    entries: &[Entry],
    by_end: &[u32],
    path: &[u32],
    potentials: &[i64],
    span: &Span,
    end: &Target,
) -> Result<(), CertFault>
    requires { AreReady (D.lists set.now) entries.now by_end.now span.now end.now }
    ensures { IsVerdict (claimed (D.lists set.now) entries.now span.now path.now potentials.now end.now) result }
{
    if potentials.len() != entries.len() {
        let wanted = entries.len() as u64;
        let found = potentials.len() as u64;
        return Err(CertFault::Length { wanted, found });
    }
    let found = match walk(set, entries, span, path) {
        Ok(cost) => cost,
        Err(place) => return Err(CertFault::Path(place)),
    };
    if let Some(Edge { from, to }) = unmet_edge(set, entries, by_end, potentials, span, end) {
        return Err(CertFault::Edge { from, to });
    }
    let said = end.potential;
    if said != found {
        return Err(CertFault::Total { said, found });
    }
    Ok(())
}
