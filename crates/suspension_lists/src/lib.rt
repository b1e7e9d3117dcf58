//! The waiting lists of places: what a hang lays, which processes wait on places, and the writes that wake them.
#![tactic(auto)]

mod entries;
mod hang;
mod sleepers;
mod waiting;
mod words;

pub use hang::hang_pieces;
pub use waiting::{Sleepers, waiters, wake_writes};
