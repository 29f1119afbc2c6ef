//! Look-up of a dictionary's rows by their readings: in a key, and by a prefix. Start at [`WordIndex`] and
//! [`SortedIndex::build`].
//! What the look-ups give: `mz_base`, specs/Data.antt, and specs/Cheapest.antt. What the index keeps: specs/Order.antt and
//! specs/Heads.antt.
#![tactic(auto)]

mod cheapest;
mod guesses;
mod heads;
mod look_up;
mod order;
mod packed;
mod sorted;
mod word_index;

pub use sorted::SortedIndex;
pub use word_index::WordIndex;
