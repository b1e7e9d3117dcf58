//! The terminals of a text: what the grammar is over.
ghost use Rattle.std.specs.Prelude.{◌≡◌};
ghost use Rattle.fcp_grammar.specs.Operands as spec;

use fcp_model::{ArithOp, CompareOp, Sym};

/// How a string is written, as far as the grammar asks.
#[derive(Clone, Copy, Debug, PartialEq, Eq)]
pub enum StringForm {
    /// Between quotes.
    Quoted,
    /// As a name, but for the following.
    Name,
    /// The name `mod`, which is an operator behind an operand.
    Mod,
    /// The name `module`, which begins an attribute behind a `-`.
    Module,
    /// The name `export`, which does too.
    Export,
}

/// A token with its number: a string's among the strings, from 0, and a variable's in its clause or goal, from 1.
/// Those that may begin a term, an operand or an attribute have their place in bytes, from 0.
#[derive(Clone, Copy, Debug, PartialEq, Eq)]
pub enum Terminal {
    /// A whole number.
    Int(i64, u32),
    /// A string.
    Str(Sym, StringForm, u32),
    /// A variable. Each further one behind the 250th of its clause or goal has the number 251.
    Var(u8, u32),
    /// `(`
    RoundOpen(u32),
    /// `)`
    RoundClose,
    /// `[`
    SquareOpen(u32),
    /// `]`
    SquareClose,
    /// `{`
    CurlyOpen(u32),
    /// `}`
    CurlyClose,
    /// `|`
    Bar,
    /// `,`
    Comma,
    /// The `.`, with the number of the variables before it in its clause or goal, up to 250.
    Dot(u8),
    /// `?`
    Question,
    /// `:-`
    If,
    /// `=`
    Equals,
    /// `==`
    Same,
    /// `\==`
    NotSame,
    /// `:=`
    Assign,
    /// One of `<`, `=<`, `>`, `>=`, `=:=` and `=\=`.
    Compare(CompareOp),
    /// `+`, `-`, `*` or `/`. The operator `mod` is a string.
    Operator(ArithOp, u32),
    /// A mark that has no place in the grammar.
    Other,
}

/// Whether an item that is whole before the terminal ends there.
pub fn ends_item(terminal: Terminal) -> bool
    ensures { result ≡ spec.ends_item terminal }
{
    matches!(terminal, Terminal::Comma | Terminal::Bar | Terminal::Dot(_))
}
