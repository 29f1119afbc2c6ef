//! The best path over a span of a lattice, with potentials that show that none costs less. Start at [`solve`].
//! What a path, its cost, the order of paths and potentials are: `conversion_meaning`, and docs/CONVERSION.md.
#![tactic(auto)]

mod arrivals;
mod rows;
mod solver;
mod table;

pub use solver::solve;
