//! How far an item is read: what stands before the expression or the term that is being read.
use crate::expressions::Level;
use crate::stack::Stack;
use crate::terms::TermAt;
use fcp_model::{CompareOp, Expr, Item, Term};

/// The sign between two terms.
#[derive(Clone, Copy, Debug, PartialEq, Eq)]
pub enum TermSign {
    /// `=`
    Equals,
    /// `==`
    Same,
    /// `\==`
    NotSame,
}

/// A term and the sign between it and the next.
#[derive(Drop)]
pub struct Equation {
    /// The place of the term, which is the item's.
    pub at: u32,
    pub left: Term,
    pub sign: TermSign,
}

/// What stands before the expression that is being read.
#[derive(Drop)]
pub enum LeftSide {
    /// No comparison and no `:=`.
    Nothing,
    /// An expression with its comparison.
    Compared(Expr, CompareOp),
    /// A term with `:=`.
    Assigned(Term),
}

/// What waits for an operand in an item.
#[derive(Drop)]
pub struct Sums {
    /// The place of the item.
    pub at: u32,
    pub left: LeftSide,
    /// Around the open parentheses, from the inside.
    pub groups: Stack<Level>,
    pub level: Level,
    /// The operators of the item up to here, counted up to 257.
    pub operators: u32,
}

/// How far an item is read.
#[derive(Drop)]
pub enum Side {
    /// Nothing is read of it.
    Start,
    /// Behind a sign between two terms.
    Equal(Equation, TermAt),
    /// In a term that may be an operand.
    Sum(Sums, TermAt),
    /// Behind the `)` of an expression.
    Closed(Sums, Expr),
}

/// What a terminal is to an item.
#[derive(Drop)]
pub enum ItemStep {
    /// The terminal goes on. The mark says that it is one too many.
    Goes(Side, bool),
    /// The item has ended before the terminal.
    Ends(Item),
    /// No item goes on with the terminal, and none has ended before it.
    Refused,
}
