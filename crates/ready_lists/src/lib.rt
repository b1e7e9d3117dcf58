//! The processes of a heap that are Ready, and those that are not done.
#![tactic(auto)]

ghost use Rattle.ready_lists.specs.Laws.{ReadyAreThoseOfTheState, LiveAreThoseOfTheState};

mod listing;

pub use listing::{live_processes, ready_processes};

/// In words that stand for a state the Ready processes are those of the state, in order.
pub fn states()
    ensures { ReadyAreThoseOfTheState }
{}

/// In words that stand for a state the processes that are not done are those of the state, in order.
pub fn live_states()
    ensures { LiveAreThoseOfTheState }
{}
