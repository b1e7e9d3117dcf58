//! The values of expressions that are stored as words, as those of the process `:=`.
#![tactic(auto)]

ghost use Rattle.stored_expressions.specs.Laws.{LawOfStored};

mod evaluation;
mod listing;
mod operators;

pub use evaluation::{ExpressionLists, number_of};
pub use operators::operation;

/// Over a store the value of a word is that of the expression which the word says. This does nothing: its contract is the law.
pub fn stored()
    ensures { LawOfStored }
{}
