//! The terminals of Flat Concurrent Prolog texts: their tokens, with the numbers of strings and variables.
#![tactic(auto)]

mod marks;
mod places;
mod strings;
mod terminals;
mod variables;

pub use places::place_at;
pub use terminals::{Terminals, terminals_of};
pub use variables::{Form, Variable};
