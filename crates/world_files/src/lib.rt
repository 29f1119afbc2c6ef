//! What the files of a command mean: they are read in the order of work, and the first refusal counts. Start at
//! [`read_world`], [`read_replay`], [`read_listing`], [`read_set`] and [`read_claim`].
//! The order of work, and the world of a manifest: specs/Worlds.antt. What `check` lists: specs/Listings.antt. What is asked of
//! one data set: specs/Queries.antt.
//! When a refusal is free, and what a store is left with: specs/Reading.antt.
#![tactic(auto)]

mod bounds;
mod dictionaries;
mod laws;
mod listing;
mod manifest;
mod name;
mod query;
mod reading;
mod reload;
mod scripts;
mod sets;
mod users;
mod world;

pub use bounds::Bounds;
pub use dictionaries::Reloads;
pub use laws::{answers_hold, limits_are, played_logs_are_named};
pub use name::Name;
pub use query::{Claim, Query, read_claim, read_set};
pub use reading::{DataFile, Found, MOST_READ_BYTES};
pub use reload::{DictFault, Reload};
pub use scripts::{ScriptFile, Scripts};
pub use users::User;
pub use world::{Opened, Replay, Sources, read_listing, read_replay, read_world};
