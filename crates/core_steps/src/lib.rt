//! A run of several clients, one event at a time. What an event makes, and when it is legal: `run_meaning`, and docs/RUNS.md.
//! Start at [`Core`].
#![tactic(auto)]

mod addition;
mod beginning;
mod board;
mod certificates;
mod coming;
mod deeds;
mod error;
mod jobs;
mod order;
mod plans;
mod progress;
mod running;
mod standing;
mod steps;

pub use error::StepError;
pub use plans::{ClientPlan, UserPlan, World};
pub use steps::Core;
