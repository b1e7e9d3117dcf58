//! Goals of texts, laid into plain heaps of their own, and the code of modules of texts: for tests and measurements.
#![tactic(auto)]

mod code;
mod goals;

pub use code::compile_text;
pub use goals::{LaidGoal, lay_text};
