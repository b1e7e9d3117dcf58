//! The shared store tried out: purses of which seats in several threads move money.
#![tactic(auto)]

mod banks;
mod moved;
mod notes;
mod noting;
mod purses;
mod runs;
mod spending;
#[cfg(test)]
mod tests;
mod transfers;
mod workers;

pub use banks::bank;
pub use moved::Moved;
pub use notes::{LEAST_NOTE, Note, Notes};
pub use noting::{add_note, blank_page};
pub use purses::{Purses, Transfer};
pub use runs::{Finish, purse_run};
pub use spending::{Tally, spend};
pub use transfers::{glances, transfer};
pub use workers::{Worker, gather, work_all};
