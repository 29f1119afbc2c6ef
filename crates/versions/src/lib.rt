//! Registries: one shared value that readers take without waiting, over one history that only grows.
//! Start at [`registry`]; who reads has a [`Reader`], who changes the value the one [`Publisher`].
//! What a history and a prefix of it are: specs/Histories.antt; what follows: src/laws.rt. The rule that each step keeps:
//! docs/REGISTRIES.md.
#![tactic(auto)]

mod history;
mod known;
mod laws;
mod making;
mod publisher;
mod reader;
mod receipt;
mod shown;
mod writer;

pub use history::Version;
pub use laws::{an_operation_adds, the_shorter_begins_the_longer};
pub use making::{RegistryError, registry};
pub use publisher::Publisher;
pub use reader::Reader;
pub use receipt::Receipt;

#[cfg(test)]
mod tests;
