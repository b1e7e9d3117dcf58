//! A turn of a process over a hall makes exactly the entry that is decided.
#![tactic(auto)]

mod answer;
mod bare;
mod change;
mod hall;
mod looking;
mod making;
mod pages;
mod placing;
mod plain_hall;
mod prepared;
mod turns;

pub use answer::{Spent, Turn};
pub use bare::{control, fail};
pub use hall::Hall;
pub use plain_hall::PlainHall;
pub use turns::{make_planned, turn};
