//! The plan of a process's move: what is decided for it, and what its entry reads and writes.
#![tactic(auto)]

mod cells;
mod children;
mod commit;
mod copies;
mod fail;
mod hang;
mod mover;
mod places;
mod plan;
mod planner;
mod room;
mod woken;

pub use planner::{Planned, Planner};
