//! Segments of a converted key: where a path is cut into them, and the bounds with which one of them is wider or narrower.
//! Start at [`cut`] and [`resize`]. What segments are: `conversion_meaning`, specs/Segments.antt.
#![tactic(auto)]

mod cutting;
mod resizing;

pub use cutting::cut;
pub use resizing::resize;
