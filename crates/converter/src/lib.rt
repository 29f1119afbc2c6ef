//! A conversion: the best path over a key, and for each of its segments the values that a person chooses from. Start at
//! [`convert`]. What a conversion answers: `conversion_meaning`, specs/Answers.antt, and docs/CONVERSION.md.
#![tactic(auto)]

mod conversion;
mod spans;

pub use conversion::convert;
