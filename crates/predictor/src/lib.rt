//! Suggestions for the front of a reading: what was chosen before, and words. Start at [`suggest`].
//! What the suggestions are: `conversion_meaning`, specs/Suggestions.antt, and docs/CONVERSION.md.
#![tactic(auto)]

mod pairs;
mod suggestion;

pub use suggestion::suggest;
