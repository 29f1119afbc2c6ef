//! The schedule of a run: its events as text. [`read`] reads a file, a report among them, and [`print`] writes the events.
//! What a line, a file and an event mean: specs/Events.antt, Readings.antt and Texts.antt, and docs/FORMATS.md.
//! What follows: src/laws.rt.
#![tactic(auto)]

mod event_line;
mod examples;
mod laws;
mod numbers;
mod reader;
mod writer;

pub use event_line::MOST_NUMBER;
pub use examples::{bad_lines_are_told, schedules_read};
pub use laws::{limits_are, printed_schedules_read, read_events_can_be_printed};
pub use reader::{Reading, read};
pub use writer::print;
