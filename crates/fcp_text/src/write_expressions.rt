ghost use Rattle.std.specs.Prelude.{◌≡◌};
ghost use Rattle.fcp_text.specs.SourceExpressions.{expr_text, operand_text, operator_text};
ghost use Rattle.fcp_text.specs.SourceItems.{comparison_text};
ghost use Rattle.fcp_text.specs.Buffering.{IsBuffered};

use crate::buffer::{Buffer, put};
use crate::write_terms::write_term;
use fcp_model::{ArithOp, CompareOp, Expr, Names};
use logix_edge::{Sink, SinkFailed};

/// Puts an expression.
#[cycle(expressions)]
pub(crate) fn write_expression<K: Sink>(
    names: &Names,
    expression: &Expr,
    buffer: &mut Buffer,
    sink: &mut K,
) -> Result<(), SinkFailed>
    ensures { IsBuffered (K.written sink.old) (K.written sink.new) buffer.old buffer.new (K.faults sink.old) (K.faults sink.new)
        (expr_text names.now expression.now) result }
{
    match expression {
        Expr::Leaf(term, _) => write_term(names, term, buffer, sink),
        Expr::Op(operator, left, right) => {
            write_operand(names, left.get(), buffer, sink)?;
            put(buffer, sink, operator_sign(*operator))?;
            write_operand(names, right.get(), buffer, sink)
        }
    }
}

/// Puts an operand: in parentheses where it is an operation.
#[cycle(expressions)]
fn write_operand<K: Sink>(
    names: &Names,
    operand: &Expr,
    buffer: &mut Buffer,
    sink: &mut K,
) -> Result<(), SinkFailed>
    ensures { IsBuffered (K.written sink.old) (K.written sink.new) buffer.old buffer.new (K.faults sink.old) (K.faults sink.new)
        (operand_text names.now operand.now) result }
{
    match operand {
        Expr::Leaf(term, _) => write_term(names, term, buffer, sink),
        Expr::Op(_, _, _) => {
            put(buffer, sink, b"(")?;
            write_expression(names, operand, buffer, sink)?;
            put(buffer, sink, b")")
        }
    }
}

/// An operator, with a space on each side.
fn operator_sign(operator: ArithOp) -> &'static [u8]
    ensures { result.now ≡ operator_text operator }
{
    match operator {
        ArithOp::Add => b" + ",
        ArithOp::Sub => b" - ",
        ArithOp::Mul => b" * ",
        ArithOp::Div => b" / ",
        ArithOp::Mod => b" mod ",
    }
}

/// A comparison's sign, with a space on each side.
pub(crate) fn comparison_sign(comparison: CompareOp) -> &'static [u8]
    ensures { result.now ≡ comparison_text comparison }
{
    match comparison {
        CompareOp::Less => b" < ",
        CompareOp::AtMost => b" =< ",
        CompareOp::Greater => b" > ",
        CompareOp::AtLeast => b" >= ",
        CompareOp::Equal => b" =:= ",
        CompareOp::NotEqual => b" =\\= ",
    }
}
