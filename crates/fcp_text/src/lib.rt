//! Texts of Flat Concurrent Prolog: their tokens, and terms, clauses and modules as texts again.
#![tactic(auto)]

mod buffer;
mod bytes;
mod laws;
mod lexer;
pub mod mark;
mod marks;
mod numbers;
mod pieces;
mod quotes;
mod write_bytes;
mod write_clauses;
mod write_expressions;
mod write_items;
mod write_terms;
mod writers;

pub use laws::{tokens_are_few, tokens_are_spelled_well, tokens_stand_in_order};
pub use lexer::{MOST_BYTES, Token, tokens};
pub use pieces::Kind;
pub use writers::{write_clause, write_module, write_term};
