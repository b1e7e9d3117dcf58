//! The run of one worker over a plain hall: its log, its outcome, and how many of the controls it made.
#![tactic(auto)]

mod engine;
mod mode;
mod one_worker;
mod queues;
mod starting;
mod task;

pub use one_worker::alone;
pub use task::{Run, Task};
