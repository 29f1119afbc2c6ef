//! The outside as the server sees it: files that are read by name, and bytes that are written.
//! Start at [`Store`] and [`Sink`]; a whole output goes through [`write_all`].
//! When a fault counts: specs/Causes.antt. What a sink has taken: specs/Taken.antt.
#![tactic(auto)]

mod file_list;
mod file_store;
mod limits;
mod memory_sink;
mod memory_store;
mod out_sink;
mod plan;
mod sink;
mod store;
mod sure;

pub use file_store::FileStore;
pub use limits::{MOST_READ, MOST_TRIES, limits_are};
pub use memory_sink::MemorySink;
pub use memory_store::MemoryStore;
pub use out_sink::{OutSink, SteadyWriter};
pub use sink::{Sink, SinkFault, write_all};
pub use store::{Store, StoreFault};
pub use sure::{SureSink, SureStore};

#[cfg(test)]
mod tests;
