//! The text of certificates: written by [`print`] and [`print_after`], read by [`read`]. The bounds of a command line: [`read_bounds`].
//! What the text is: specs/Texts.antt; what it reads as: specs/Readings.antt, and specs/Fields.antt for its fields.
//! That the one undoes the other: [`written_certificates_read`].
#![tactic(auto)]

mod bounds;
mod error;
mod field;
mod laws;
mod reader;
mod writer;

pub use bounds::read_bounds;
pub use error::TextError;
pub use laws::{limits_are, written_certificates_read};
pub use reader::read;
pub use writer::{print, print_after};
