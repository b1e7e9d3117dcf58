//! The machine that follows compiled code over words.
#![tactic(auto)]

mod begin;
mod child;
mod constant;
mod desk;
mod get;
mod open;
mod open_tuple;
mod pass;
mod pieces;
mod processes;
mod put;
mod slots;
mod term;
mod unify;

pub use desk::Desk;
pub use pieces::Pieces;
pub use slots::Slots;
pub use term::is_term;
