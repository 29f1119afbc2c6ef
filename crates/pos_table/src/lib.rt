//! The smaller files of a data set: ids with their features, nodes for unknown words, rows of segments, a user's
//! parts of speech, symbols and single kanji. Start at the six functions `read_..`.
//! What a line of each gives: specs/, and docs/FORMATS.md.
#![tactic(auto)]

mod groups;
mod ids;
mod joins;
mod kanji;
mod laws;
mod symbols;
mod unknown;
mod user_pos;
mod values;

pub use ids::{Ids, read_ids};
pub use joins::{Joins, read_joins};
pub use kanji::{Kanji, read_kanji};
pub use laws::{
    id_of_is_least, id_rows_are_ids, id_rows_rise, join_rows_are_sound, limits_are,
    pos_rows_are_nodes, pos_rows_rise, unknown_rows_are_nodes,
};
pub use symbols::{Symbols, read_symbols};
pub use unknown::{UNKNOWN_COST, UNKNOWN_ID, Unknown, read_unknown};
pub use user_pos::{UserPos, read_user_pos};
