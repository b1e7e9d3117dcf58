//! The replay of a log: its entries are made again, one by one, and each is told to be a next entry of the run or not.
#![tactic(auto)]

mod answer;
mod lines;
mod making;
mod mode;
mod moves;
mod ready_table;
mod replay;
mod snapshots;
mod steps;
mod waits;

pub use answer::{Stepped, Why};
pub use replay::Replay;
