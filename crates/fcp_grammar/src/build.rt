//! Building terms.
ghost use Rattle.std.specs.Prelude.{◌≡◌, [], ◌∷◌, ◌++◌, IfOk, OnOk};
ghost use Rattle.fcp_grammar.specs.Values.{listed, tuple_of};
ghost use Rattle.fcp_model.specs.declared.term.Term.TheVariants.{Cons};

use fcp_model::{NoMemory, Seq, Sym, Term};
use sqlite_items::Boxed;
use std::alloc::Global;

fn boxed(alloc: Global, term: Term) -> Result<Boxed<Term>, NoMemory>
    ensures { IfOk result (λ t. t ≡ term) }
{
    match Boxed::new(alloc, term) {
        Ok(boxed) => Ok(boxed),
        Err(_) => Err(NoMemory),
    }
}

/// A pair of a first part and a rest.
fn pair(alloc: Global, first: Term, rest: Term) -> Result<Term, NoMemory>
    ensures { IfOk result (λ t. t ≡ Cons first rest) }
{
    Ok(Term::Cons(boxed(alloc, first)?, boxed(alloc, rest)?))
}

/// A pair for each element, in order, and then the rest.
#[tactic(auto, using(crate::proofs::Listed::listed_append))]
pub fn list(alloc: Global, elements: Seq<Term>, rest: Term) -> Result<Term, NoMemory>
    ensures { IfOk result (λ t. t ≡ listed elements rest) }
{
    let mut left = elements.into_vec();
    let mut built = rest;
    while let Some(last) = left.pop() {
        built = pair(alloc, last, built)?;
    }
    Ok(built)
}

/// A string with arguments: the tuple of the string and then the arguments, in order.
pub fn tuple(name: Sym, args: Seq<Term>) -> Result<Term, NoMemory>
    ensures { IfOk result (λ t. t ≡ tuple_of name args) }
{
    let mut parts = args.into_vec();
    match parts.insert(0, Term::Str(name)) {
        Ok(()) => Ok(Term::Tuple(Seq::of(parts))),
        Err(_) => Err(NoMemory),
    }
}
