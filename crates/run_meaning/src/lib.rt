//! What a run means: events, when each is legal, what lists of them make, the order of a run, and what one client alone
//! sees. specs/ has the definitions, and each function here is a law of them, which its clause states. Start at
//! specs/Plays.antt.
#![tactic(auto)]

mod answers;
mod examples;
mod growth;
mod journal;
mod log;
mod notes;
mod numbers;
mod order;
mod seen;
mod solo;
mod version;

pub use answers::{answers_suffice, clients_are_solo, events_of_one_alone_are_legal};
pub use examples::{
    a_conversion_is_certified, a_late_job_is_skipped, a_take_has_the_learns_before_it,
    data_are_replaced_between_compositions, one_client_runs, reloads_come,
    the_highest_reload_is_in_force, the_second_is_served_alone, these_are_not_legal,
    two_clients_run, waits_end,
};
pub use growth::{closed_logs_stay, logs_grow, others_are_left, own_deeds_are_done};
pub use journal::{
    commits_are_learned, entries_are_its_own, entries_are_numbered, users_are_there,
};
pub use log::{each_comes_once, newest_is_highest, published_jobs_rise};
pub use notes::{each_event_is_legal, events_are_noted};
pub use numbers::numbers_hold;
pub use order::{certificates_stand_aside, run_is_complete, run_is_played, waits_of_a_run_end};
pub use seen::{jobs_are_none_older, journals_are_none_older};
pub use solo::clients_are_alone;
pub use version::{
    data_stay_without_a_take, lines_have_the_version, takes_are_typed, the_last_take_is_used,
};
