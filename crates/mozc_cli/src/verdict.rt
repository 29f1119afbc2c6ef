ghost use Rattle.std.specs.Prelude.{IfOk};
ghost use Rattle.conversion_meaning.specs.Lattices.{AreBounds, IsKey};
ghost use Rattle.world_files.specs.Conversions.{IsVerdictOn};

use mz_base::{CertFault, Certificate, DataSet, NoMemory, NoUserWords};
use std::alloc::Global;

/// The verdict on a certificate for a key, within the certificate's bounds.
pub fn verify<D: DataSet>(
    alloc: Global,
    set: &D,
    key: &[char],
    certificate: &Certificate,
) -> Result<Result<(), CertFault>, NoMemory>
    requires key { IsKey key.now }
    requires bounds { AreBounds key.now certificate.now.bounds }
    ensures { IfOk result (IsVerdictOn (D.lists set.now) key.now certificate.now) }
{
    let bounds = certificate.bounds.as_slice();
    let lattice = lattice::build(alloc, set, &NoUserWords::new(alloc), key, bounds)?;
    Ok(cert_check::check(set, &lattice, &lattice::whole(&lattice), certificate))
}
