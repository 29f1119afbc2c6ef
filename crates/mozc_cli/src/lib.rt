//! The commands of the program, and what the program itself does with its words. Start at [`local`]; the program calls
//! [`action_for`], [`tell`] and [`ending_of`] too.
//! What the words ask for: specs/Args.antt; what an answer says: specs/Settles.antt; what a replay is: specs/Replays.antt; what a
//! run is: `run_meaning`.
#![tactic(auto)]

mod args;
mod command;
mod laws;
mod outputs;
mod program;
mod replay;
mod statuses;
mod verdict;

pub use args::Request;
pub use command::local;
pub use laws::{replays_are_reported, runs_are_reported};
pub use outputs::Output;
pub use program::{Action, Ending, Told, action_for, ending_of, tell};
