//! One client's session: what is composed and converted, and what each command makes of it. Start at [`Session`].
//! What a session is and what a command comes to: `session_meaning`, specs/Steps.antt, and docs/FORMATS.md, "Session".
#![tactic(auto)]

mod choosing;
mod composing;
mod composition;
mod converting;
mod lines;
mod picks;
mod pinned;
mod stage;
mod stepping;

pub use pinned::Pinned;
pub use session_meaning::Need;
pub use stepping::Session;
