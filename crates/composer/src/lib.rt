//! A text that is being composed: romaji is typed, kana is shown. Start at [`Composer`].
//! What each key makes of it: specs/Composing.antt, and docs/FORMATS.md.
#![tactic(auto)]

mod composer;
mod laws;
mod shown;

pub use composer::{Composer, InsertError, MOST_SHOWN, Seen};
pub use laws::{
    backspace_takes_one_shown, delete_takes_one_of_the_reading, limits_are, moves_leave_no_run,
    moves_show_the_reading, right_undoes_left,
};
