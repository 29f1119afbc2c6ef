//! Connection costs: a number for each pair of neighbours, by their ids. Start at [`Matrix`].
//! What a file gives: specs/Costs.antt, and docs/FORMATS.md. How the matrix keeps it: specs/Columns.antt.
#![tactic(auto)]

mod columns;
mod kept;
mod laws;
mod limits;
mod matrix;
mod reader;

pub use laws::{costs_stand_on_their_lines, tables_are_sound};
pub use limits::{MOST_BYTES, limits_are};
pub use matrix::Matrix;
