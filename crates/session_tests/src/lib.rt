//! The tests of what stands around a session: a text that is being composed, keys, scripts and reports. Nothing else
//! stands here.
#![tactic(auto)]

#[cfg(test)]
mod bindings;
#[cfg(test)]
mod composing;
#[cfg(test)]
mod reports;
#[cfg(test)]
mod script;
