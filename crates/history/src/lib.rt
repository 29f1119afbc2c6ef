//! What a user has learned: the newest pair first, each pair once, and no more than may be. Start at [`History`].
//! What learning makes of a list of pairs: `session_meaning`, specs/History.antt, and docs/FORMATS.md.
#![tactic(auto)]

mod history;
mod kept;

pub use history::History;
