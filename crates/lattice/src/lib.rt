//! The lattice of a key: all entries of its parts, and their order by end. Start at [`build`]; [`value_of`] reads an
//! entry, [`first_from`] walks the order of ends. What an entry and a well-formed lattice are: `conversion_meaning`, specs/Entries.antt and Lattices.antt.
#![tactic(auto)]

mod by_end;
mod cursor;
mod entries;
mod made;
mod run;
mod sources;
mod spans;
mod value;

pub use cursor::{first_at, first_beginning_at, first_from};
pub use made::build;
pub use spans::whole;
pub use value::value_of;
