//! A store of words that several seats share: pages that one seat holds at a time, and entries that one atomic step numbers.
#![tactic(auto)]

mod arrange;
mod clock;
mod close;
mod closed;
mod fits;
mod give;
mod join;
mod journal;
mod law;
mod load;
mod prime;
mod publish;
mod quota;
mod rising;
mod share;
mod stamp;
mod store;
mod take;
mod taken;
mod view;

pub use closed::{Closed, ClosedWords};
pub use fits::Fits;
pub use quota::Quota;
pub use rising::numbers_rise;
pub use share::Shared;
pub use store::{Seat, Store};
pub use taken::Taken;
pub use view::{Given, Look, Numbered, View};
