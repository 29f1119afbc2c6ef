//! All paths over a span of a lattice, in order, each once; and the first values of the span. Start at [`NBest`] and
//! [`distinct`]. What the order of paths and the values of a span are: `conversion_meaning`, and docs/CONVERSION.md.
#![tactic(auto)]

mod cache;
mod chain;
mod costs;
mod found;
mod grow;
mod join;
mod queue;
mod search;
mod tail;
mod values;

pub use found::Found;
pub use search::NBest;
pub use values::distinct;
