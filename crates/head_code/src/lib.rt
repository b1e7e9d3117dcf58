//! Code in the making, and the code of terms and of heads.
#![tactic(auto)]

mod arguments;
mod emitter;
mod heads;
mod small_terms;
mod terms;

pub use arguments::head;
pub use emitter::{Emitter, up};
pub use terms::{put, put_parts};
