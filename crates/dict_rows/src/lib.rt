//! Rows of dictionary files. Start at [`read`].
//! What a line gives: specs/Rows.antt, and docs/FORMATS.md.
#![tactic(auto)]

mod bucket;
mod columns;
mod laws;
mod reader;
mod tally;

pub use laws::rows_are_words;
pub use reader::read;
