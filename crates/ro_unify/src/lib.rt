//! Unification of words with read-only occurrences, over any words that can be loaded.
#![tactic(auto)]

mod alike;
mod look;
mod occurrence;
mod table;
mod unification;

pub use alike::push_alike;
pub use look::{Look, deref};
pub use occurrence::Whole;
pub use table::Move;
pub use unification::{Unified, WorkLists, note_look, two_values, unify};
