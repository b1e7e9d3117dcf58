//! The operators of expressions, and the comparisons of numbers.
ghost use Rattle.std.specs.Prelude.{◌≡◌};
ghost use Rattle.fcp_model.specs.Expressions.{apply};
ghost use Rattle.fcp_model.specs.Tests.{order_of};
ghost use Rattle.guard_tests.specs.Numbers.{answer_of, or_bad};

use crate::number::Evaluated;
use fcp_model::{ArithOp, CompareOp};

/// A number, where there is one.
fn checked(number: Option<i64>) -> Evaluated
    ensures { result ≡ or_bad number }
{
    match number {
        Some(number) => Evaluated::Value(number),
        None => Evaluated::Bad,
    }
}

/// The rest of the truncated quotient.
fn rest(left: i64, right: i64) -> Evaluated
    ensures { result ≡ answer_of (apply ArithOp.Mod left right) }
{
    if right == 0 {
        Evaluated::Bad
    } else {
        Evaluated::Value(left.wrapping_rem(right))
    }
}

/// What an operator gives.
pub(crate) fn compute(op: ArithOp, left: i64, right: i64) -> Evaluated
    ensures { result ≡ answer_of (apply op left right) }
{
    match op {
        ArithOp::Add => checked(left.checked_add(right)),
        ArithOp::Sub => checked(left.checked_sub(right)),
        ArithOp::Mul => checked(left.checked_mul(right)),
        ArithOp::Div => checked(left.checked_div(right)),
        ArithOp::Mod => rest(left, right),
    }
}

/// Whether two numbers compare so.
pub(crate) fn is_ordered(op: CompareOp, left: i64, right: i64) -> bool
    ensures { result ≡ order_of op left right }
{
    match op {
        CompareOp::Less => left < right,
        CompareOp::AtMost => left <= right,
        CompareOp::Greater => left > right,
        CompareOp::AtLeast => left >= right,
        CompareOp::Equal => left == right,
        CompareOp::NotEqual => left != right,
    }
}
