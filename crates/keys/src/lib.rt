//! The keys of a script, what they are called, and what they do in each mode. Start at [`key_of`] and [`bind`].
//! The names and the table: specs/, and docs/FORMATS.md, "Keys".
#![tactic(auto)]

mod action;
mod command;
mod key;
mod laws;

pub use action::{Action, bind};
pub use command::Command;
pub use key::{Key, key_of, key_of_char};
pub use laws::{
    characters_are_bound, characters_name_their_keys, keys_are_named_or_characters,
    names_have_their_keys, precomposition_binds_characters_alone,
};
