//! A user's dictionary: its words, and the lines that gave none. Start at [`import`] and [`UserDict`].
//! What a line gives: specs/Rows.antt, and docs/FORMATS.md. What the look-ups give: `mz_base`, specs/Users.antt.
#![tactic(auto)]

mod by_reading;
mod columns;
mod counts;
mod dictionary;
mod error;
mod importing;
mod laws;
mod lengths;
mod reader;
mod skipped;
mod words;

pub use dictionary::UserDict;
pub use error::ImportError;
pub use importing::import;
pub use laws::{outcomes_go_by_lines, rows_and_skips_are_filters, texts_of_few_rows_are_read};
pub use skipped::{Skip, SkippedLine};
