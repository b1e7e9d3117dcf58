//! The lines of entries and of the goal's variables, read off the words that stand for a state.
#![tactic(auto)]

mod commits;
mod hangs;
mod lines;
mod names;
mod values;
mod variables;

pub use hangs::waiting_set;
pub use lines::{push_commit_line, push_hang_line, push_variable_lines};
pub use names::process_name;
