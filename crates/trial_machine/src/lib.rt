//! The machine that follows compiled code over words.
#![tactic(auto)]

mod assign;
mod decide;
mod goal;
mod leave;
mod machine;
mod make;
mod open;
mod open_tuple;
mod places;
mod put;
mod readers;
mod run;
mod spawn;
mod step;
mod tests;
mod trial;
mod unify;

pub use decide::Trial;
pub use goal::{load_number, load_word};
pub use machine::Machine;
pub use places::Places;
