use crate::{CompareOp, Expr, Seq, Sym, Term};

/// What an item of a guard, a body or a goal says.
#[derive(Drop)]
pub enum Call {
    /// A name with its arguments: a procedure, `true`, or a test.
    User { name: Sym, args: Seq<Term> },
    /// `A = B`.
    Unify(Term, Term),
    /// `A := E`.
    Assign(Term, Expr),
    /// `A == B`.
    Same(Term, Term),
    /// `A \== B`.
    NotSame(Term, Term),
    /// One of `<`, `=<`, `>`, `>=`, `=:=` and `=\=`.
    Compare(CompareOp, Expr, Expr),
}

/// An item, with the place in bytes, from 0, of its first token.
#[derive(Drop)]
pub struct Item {
    pub at: u32,
    pub call: Call,
}

/// A clause.
#[derive(Drop)]
pub struct Clause {
    /// The place of the head, in bytes from 0.
    pub at: u32,
    /// The name of the procedure.
    pub head: Sym,
    /// The head's arguments.
    pub args: Seq<Term>,
    /// The tests, from the left.
    pub guard: Seq<Item>,
    /// The body, from the left.
    pub body: Seq<Item>,
    /// How many variables the clause has.
    pub vars: u8,
}

/// One element of an `-export`.
#[derive(Clone, Copy, Debug, PartialEq, Eq)]
pub struct Export {
    /// The place of the name, in bytes from 0.
    pub at: u32,
    pub name: Sym,
    /// The number of arguments.
    pub arity: u32,
}

/// A module of one text.
#[derive(Drop)]
pub struct Module {
    /// The name that `-module` gives.
    pub name: Option<Sym>,
    /// The place of a second `-module`.
    pub again: Option<u32>,
    /// The place of the first attribute of another name than `module` and `export`.
    pub other: Option<u32>,
    /// What the `-export`s list together, or `None` where the text has none: then all procedures are exported.
    pub exports: Option<Seq<Export>>,
    /// The clauses in the order of the text.
    pub clauses: Seq<Clause>,
}

/// A goal of one text.
#[derive(Drop)]
pub struct GoalText {
    pub items: Seq<Item>,
    /// The variables' names, the first variable's first; `None` for one whose name begins with `_`.
    pub names: Seq<Option<Sym>>,
}
