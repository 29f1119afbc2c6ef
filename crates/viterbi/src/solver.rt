ghost use Rattle.std.specs.Prelude.{◌≡◌, IfOk};
ghost use Rattle.conversion_meaning.specs.Best.{IsBest};
ghost use Rattle.conversion_meaning.specs.Certificates.{IsCertificate, claim_of};
ghost use Rattle.conversion_meaning.specs.InOrder.{best_path};
ghost use Rattle.conversion_meaning.specs.Lattices.{IsWellFormed};
ghost use Rattle.conversion_meaning.specs.Paths.{IsSpan, path_cost};
ghost use Rattle.conversion_meaning.specs.Potentials.{AreLeastCosts};

use crate::table::{potentials, reach_end, table_of, trail};
use mz_base::{Certificate, DataSet, Lattice, NoMemory, Seq, Span};
use std::alloc::Global;

/// The best path over a span, with its cost and the least cost of each entry of the span.
pub fn solve<D: DataSet>(
    alloc: Global,
    set: &D,
    lattice: &Lattice,
    span: &Span,
) -> Result<Certificate, NoMemory>
    requires well { IsWellFormed (D.lists set.now) lattice.now }
    requires span { IsSpan (D.lists set.now) lattice.now span.now }
    ensures best { IfOk result (λ c. IsBest (D.lists set.now) lattice.now.entries span.now c.path) }
    ensures first { IfOk result (λ c. c.path ≡ best_path (D.lists set.now) lattice.now.entries span.now) }
    ensures total { IfOk result (λ c. c.total ≡ path_cost (D.lists set.now) lattice.now.entries span.now c.path) }
    ensures potentials { IfOk result (λ c. AreLeastCosts (D.lists set.now) lattice.now.entries span.now c.potentials) }
    ensures certified { IfOk result (λ c. IsCertificate (claim_of (D.lists set.now) lattice.now.entries span.now c)) }
    ensures bounds { IfOk result (λ c. c.bounds ≡ lattice.now.bounds) }
{
    let table = table_of(alloc, set, lattice, span)?;
    let last = reach_end(alloc, set, lattice, span, &table)?;
    let path = trail(alloc, &table, last.before)?;
    let costs = potentials(alloc, lattice.entries.as_slice(), &table, span)?;
    let bounds = Vec::from_slice(alloc, lattice.bounds.as_slice())?;
    Ok(Certificate {
        bounds: Seq::from_vec(bounds),
        path: Seq::from_vec(path),
        potentials: Seq::from_vec(costs),
        total: last.cost,
    })
}
