//! Loads modules and goals of Flat Concurrent Prolog that were read: finds their faults beyond the grammar, and numbers
//! their procedures.
#![tactic(auto)]

mod calls;
mod checks;
mod first;
mod guards;
mod leaves;
mod loading;

pub use first::first_is_least;
pub use loading::{load, load_goal};
