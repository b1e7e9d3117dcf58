//! The grammar of terms, expressions and items over terminals, and the machine that reads them one terminal after another.
#![tactic(auto)]

mod build;
mod expressions;
mod items;
mod limits;
mod operands;
mod sides;
mod stack;
mod terminals;
mod terms;

pub use expressions::{LeftOperand, Level};
pub use items::step_side;
pub use limits::{MOST_ARGUMENTS, MOST_ITEMS, MOST_OPERATORS, MOST_VARIABLES};
pub use sides::{Equation, ItemStep, LeftSide, Side, Sums, TermSign};
pub use stack::Stack;
pub use terminals::{StringForm, Terminal};
pub use terms::{Frame, Phase, TermAt, Told, is_large, start, step, term_of};
