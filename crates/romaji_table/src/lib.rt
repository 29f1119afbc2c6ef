//! Romaji tables: a file of rules, and the longest rule that begins a text. Start at [`read`] and [`Table`].
//! What a file gives: specs/Rows.antt, and docs/FORMATS.md. What rules mean: `mz_base`, specs/Kana.antt.
#![tactic(auto)]

mod index;
mod laws;
mod reader;
mod row;
mod table;

pub use laws::{law_of_repeats, rows_are_rules, rows_rise};
pub use reader::read;
pub use row::RuleReader;
pub use table::Table;
