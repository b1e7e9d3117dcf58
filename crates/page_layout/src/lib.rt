//! Where the words of an entry go among the pages of a store, and what the entry writes.
#![tactic(auto)]

mod commit;
mod follow;
mod hang;
mod moves;
mod pieces;
mod rooms;
mod written;

pub use commit::put_commit;
pub use follow::{follows, plans};
pub use hang::put_hang;
pub use moves::{goes_to, relocate};
pub use rooms::{Room, first_open, lay};
pub use written::Written;
