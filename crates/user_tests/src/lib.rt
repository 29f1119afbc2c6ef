//! Tests of what a user brings: a dictionary, and what was learned. Nothing else stands here.
#![tactic(auto)]

#[cfg(test)]
mod histories;
#[cfg(test)]
mod user_dicts;
