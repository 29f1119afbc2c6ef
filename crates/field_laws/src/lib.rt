//! What files give are fields of a report: no text of them that a session can show, and no key of a script, has a tab or a
//! line feed. With the laws of `session_meaning` a report can be cut into its lines and fields again. There is no code here.
#![tactic(auto)]

mod laws;

pub use laws::{dictionaries_are_fields, scripts_are_fields, sets_are_fields};
