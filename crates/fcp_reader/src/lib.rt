//! Reads texts as modules and goals of Flat Concurrent Prolog, or answers the first fault of their tokens or their grammar.
#![tactic(auto)]

mod attributes;
mod clauses;
mod goals;
mod laws;
mod modules;
mod reading;
mod sources;
mod state;

pub use laws::{
    fault_is_no_goal, fault_is_no_module, one_fault, one_goal, one_module, texts_keep_limits,
};
pub use reading::MOST_OPEN;
pub use sources::{read_goal, read_module};
