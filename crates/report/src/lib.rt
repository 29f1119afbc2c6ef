//! The report of a run: [`print`] writes what [`Logs`](mz_base::Logs) note.
//! What is written: specs/Texts.antt; which numbers the logs may have: specs/Names.antt. The form: docs/FORMATS.md.
#![tactic(auto)]

mod certificates;
mod clients;
mod error;
mod events;
mod jobs;
mod journals;
mod laws;
mod named;
mod names;
mod room;
mod text;
mod writer;

pub use error::PrintError;
pub use journals::write_note;
pub use laws::limits_are;
pub use named::are_named;
pub use room::{MOST_REPORT_BYTES, within};
pub use writer::print;
