//! The tests of schedules. Nothing else stands here.
#![tactic(auto)]

#[cfg(test)]
mod schedules;
