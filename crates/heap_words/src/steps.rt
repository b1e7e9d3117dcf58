//! The steps of an expression and the tests of a guard, as code names them.

use fcp_model::ArithOp;

/// One step of an expression in postfix order.
#[derive(Clone, Copy, Debug, PartialEq, Eq)]
pub enum ExprStep {
    /// An operand: a word, or in the table of a module's code the number of a slot.
    Push(u64),
    /// An operator on the last two results.
    Apply(ArithOp),
}

/// The tests of a guard, but for `otherwise`.
#[derive(Clone, Copy, Debug, PartialEq, Eq)]
pub enum TestKind {
    True,
    Integer,
    String,
    Constant,
    List,
    Tuple,
    Known,
    Unknown,
    /// `==`.
    Same,
    /// `\==`.
    NotSame,
    Less,
    AtMost,
    Greater,
    AtLeast,
    Equal,
    NotEqual,
}
