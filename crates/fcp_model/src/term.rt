use crate::{Seq, Sym};
use sqlite_items::Boxed;

/// A term of a source text. Its variables are numbers of the clause or goal, from 1 to 250 in order of first occurrence.
pub enum Term {
    /// A whole number of 64 bits.
    Int(i64),
    /// A string, by its number.
    Str(Sym),
    /// The empty list.
    Nil,
    /// A pair: the head of a list and its rest.
    Cons(Boxed<Term>, Boxed<Term>),
    /// A tuple of one part or more. The text `f(A,B)` is the tuple of `f`, `A` and `B`.
    Tuple(Seq<Term>),
    /// A writable occurrence of a variable.
    Var(u8),
    /// A read-only occurrence of a variable, written with `?`.
    Ro(u8),
}

/// A loop along the rests of pairs, so that a long list takes no deep stack.
impl Drop for Term {
    fn drop(mut self) {
        loop {
            match self {
                Term::Cons(head, tail) => {
                    let _head: Term = head.into_inner();
                    self = tail.into_inner();
                }
                Term::Tuple(_) => return,
                Term::Int(_) | Term::Str(_) | Term::Nil | Term::Var(_) | Term::Ro(_) => return,
            }
        }
    }
}

/// The operators of an expression.
#[derive(Clone, Copy, Debug, PartialEq, Eq)]
pub enum ArithOp {
    Add,
    Sub,
    Mul,
    /// Truncated toward zero.
    Div,
    /// The rest of the truncated quotient.
    Mod,
}

/// An expression of a source text.
#[derive(Drop)]
pub enum Expr {
    /// A term, with the place in bytes of its first token.
    Leaf(Term, u32),
    /// An operation on a left and a right operand.
    Op(ArithOp, Boxed<Expr>, Boxed<Expr>),
}

/// The comparisons of two expressions.
#[derive(Clone, Copy, Debug, PartialEq, Eq)]
pub enum CompareOp {
    Less,
    AtMost,
    Greater,
    AtLeast,
    Equal,
    NotEqual,
}
