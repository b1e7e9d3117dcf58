//! The tests and expressions of guards, over any words that can be loaded.
#![tactic(auto)]

mod arithmetic;
mod equality;
mod evaluation;
mod form;
mod guard;
mod number;

pub use equality::Tested;
pub use evaluation::{TestLists, evaluate};
pub use guard::test;
pub use number::Evaluated;
