//! A data set, built from its files. Start at [`build`] and [`Engine`].
//! What the files of a set give, and which fault counts: specs/Sets.antt, and docs/FORMATS.md. What a data set means:
//! `mz_base`, specs/Data.antt.
#![tactic(auto)]

mod building;
mod data;
mod error;
mod files;
mod tables;
mod words;

pub use building::build;
pub use data::Engine;
pub use error::BuildError;
pub use files::{SetFile, SetFiles, has_role};
