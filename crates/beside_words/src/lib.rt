//! Words that stand over others, with a try's own words beside them.
#![tactic(auto)]

mod beside;

pub use beside::Beside;
