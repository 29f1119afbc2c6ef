//! Tests of a run of several clients, one event at a time. Nothing else stands here.
#![tactic(auto)]

#[cfg(test)]
mod runs;
#[cfg(test)]
mod sets;
