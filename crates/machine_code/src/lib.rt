//! The code of the abstract machine: its instructions and what they mean, and the code of a module.
#![tactic(auto)]

mod code;
mod code_text;
mod instr;
mod named_slots;

pub use code::{ClauseSize, Code, Procedure};
pub use code_text::listing;
pub use instr::Instr;
pub use named_slots::slots_named;
