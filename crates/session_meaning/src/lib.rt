//! What a session means: its stages, what each command comes to in each mode, what is learned, and the line of a command.
//! specs/ has the definitions, and each function here is a law of them, which its clause states. Start at specs/Steps.antt.
#![tactic(auto)]

mod examples;
mod history;
mod laws;
mod need;
mod page;
mod reached;

pub use examples::{
    kyo_suggests, kyouha_converts, kyouha_is_committed, kyouha_narrows, second_is_taken,
    third_passes,
};
pub use history::{MOST_PAIRS, history_limit_is, relearned_history_is_same};
pub use laws::{
    data_stay, learned_is_committed, lines_tell_the_session, quiet_commands_change_nothing,
    results_are_last, takes_come_first,
};
pub use need::Need;
pub use page::{PAGE_PLACES, page_limit_is};
pub use reached::{
    conversions_keep_the_composition, escape_shows_the_composition, keys_are_fields,
    learned_keys_are_the_reading, learned_values_are_fields, lines_are_fields,
    reached_sessions_are_sound, resized_bounds_are_bounds, resizes_keep_the_focus, soundness_stays,
};
