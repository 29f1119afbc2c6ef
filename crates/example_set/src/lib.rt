//! The worked example of きょうは, for the tests of the crates above: a small data set that looks at each of its words,
//! and lattices that are written by hand. Start at [`ExampleSet`] and [`lattice_of`].
//! What the set has, and what follows for its keys: `conversion_meaning`, specs/Examples.antt.
#![tactic(auto)]

mod lattices;
mod set;

pub use lattices::{KYOUHA, Row, kyouha_lattice, lattice_of};
pub use set::{ExampleSet, HA, KYOU, NOUN, SUPPRESSED, TODAY};
