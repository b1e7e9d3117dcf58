//! The terminals of the marks.
ghost use Rattle.std.specs.Prelude.{◌≡◌};
ghost use Rattle.fcp_terminals.specs.MarkTerminals as spec;

use fcp_grammar::Terminal;
use fcp_model::{ArithOp, CompareOp};
use fcp_text::mark;

/// The terminal of a mark at this place, by its number, with this many variables before it.
#[tactic(auto, unfolding(crate::specs::MarkTerminals::mark_terminal))]
pub fn mark_terminal(at: u32, variables: u8, number: u8) -> Terminal
    ensures { result ≡ spec.mark_terminal at variables number }
{
    match number {
        mark::ROUND_OPEN => Terminal::RoundOpen(at),
        mark::ROUND_CLOSE => Terminal::RoundClose,
        mark::SQUARE_OPEN => Terminal::SquareOpen(at),
        mark::SQUARE_CLOSE => Terminal::SquareClose,
        mark::CURLY_OPEN => Terminal::CurlyOpen(at),
        mark::CURLY_CLOSE => Terminal::CurlyClose,
        mark::BAR => Terminal::Bar,
        mark::COMMA => Terminal::Comma,
        mark::DOT => Terminal::Dot(variables),
        mark::QUESTION => Terminal::Question,
        mark::IF => Terminal::If,
        mark::ASSIGN => Terminal::Assign,
        mark::EQUALS => Terminal::Equals,
        mark::SAME => Terminal::Same,
        mark::NOT_SAME => Terminal::NotSame,
        mark::LESS => Terminal::Compare(CompareOp::Less),
        mark::AT_MOST => Terminal::Compare(CompareOp::AtMost),
        mark::GREATER => Terminal::Compare(CompareOp::Greater),
        mark::AT_LEAST => Terminal::Compare(CompareOp::AtLeast),
        mark::EQUAL => Terminal::Compare(CompareOp::Equal),
        mark::NOT_EQUAL => Terminal::Compare(CompareOp::NotEqual),
        mark::PLUS => Terminal::Operator(ArithOp::Add, at),
        mark::MINUS => Terminal::Operator(ArithOp::Sub, at),
        mark::TIMES => Terminal::Operator(ArithOp::Mul, at),
        mark::DIVIDE => Terminal::Operator(ArithOp::Div, at),
        _ => Terminal::Other,
    }
}
