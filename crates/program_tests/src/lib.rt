//! Tests of the top call, over stores and sinks in memory. There is no code here.
#![tactic(auto)]

#[cfg(test)]
mod tests;
