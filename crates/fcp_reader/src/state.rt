//! How far a module is read.
use crate::attributes::AttributeAt;
use fcp_grammar::{Side, TermAt};
use fcp_model::{Item, Module, Seq, Sym, Term};

/// The head of a clause.
#[derive(Drop)]
pub struct Head {
    /// The place of its name, in bytes from 0.
    pub at: u32,
    pub name: Sym,
    pub args: Seq<Term>,
}

/// How far a clause or an attribute is read.
#[derive(Drop)]
pub enum Part {
    /// Neither is begun.
    Between,
    /// An attribute, with the place of its `-`.
    Attribute(u32, AttributeAt),
    /// A head's name alone, with its place.
    Named(u32, Sym),
    /// The arguments of a head: its place and name, those that have ended, and the one that is read.
    Args(u32, Sym, Seq<Term>, TermAt),
    /// A whole head with arguments.
    Called(Head),
    /// The guard, if its `|` was read, and the items so far.
    Body(Head, Option<Seq<Item>>, Seq<Item>, Side),
}

/// How far a module is read.
#[derive(Drop)]
pub struct State {
    /// The clauses and attributes that have ended.
    pub read: Module,
    pub part: Part,
}
