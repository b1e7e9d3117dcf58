//! The lines of processes, read off the words that stand for a state.
#![tactic(auto)]

ghost use Rattle.process_texts.specs.Lines.{WaitsAreTold};

mod arguments;
mod expressions;
mod goals;
mod items;
mod lines;
mod reading;

pub use items::ProcessLists;
pub use lines::{push_process_line, push_process_lines};

/// A trial of a process tells the places on which it waits. This does nothing: its contract is the law.
pub fn waits()
    ensures { WaitsAreTold }
{}
