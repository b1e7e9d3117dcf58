//! A goal is laid into the pages of a new heap.
#![tactic(auto)]

mod cells;
mod expressions;
mod items;
mod layout;
mod numbers;
mod pages;
mod places;
mod processes;
mod terms;

pub use cells::goal_cells;
pub use layout::{Laid, lay_goal};
