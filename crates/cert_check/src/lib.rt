//! Checks a certificate of a conversion, and trusts nobody who made it. It takes no memory. Start at [`check`].
//! What a certificate is and in which order its conditions are tested: `conversion_meaning`, specs/Certificates.antt
//! and specs/Verdicts.antt.
#![tactic(auto)]

mod edge;
mod edges;
mod verdict;
mod walk;

pub use verdict::check;
