//! The rules that rewrite the candidates of a segment: the history's choice first, kana, numbers, full width, symbols and
//! kanji. Start at [`apply`]. What a rule makes of a list: `conversion_meaning`, specs/Rules.antt, and docs/CONVERSION.md.
#![tactic(auto)]

mod candidates;
mod history;
mod kana;
mod laws;
mod numbers;
mod rule;
mod spelling;
mod wide;

pub use history::newest_for;
pub use laws::{
    again_is_once, chosen_is_moved, distinct_values_stay, numbers_are_worth_themselves, rules_add,
};
pub use rule::{apply, rewrite, rewrite_by};
