//! Leaves of expressions that are neither numbers nor variables.
ghost use Rattle.std.specs.Prelude.{◌≡◌};
ghost use Rattle.fcp_loader.specs.Faults.{faults_at, leaves_of_clauses};
ghost use Rattle.fcp_loader.specs.Firsts.{first_of};
ghost use Rattle.fcp_loader.specs.Leaves as spec;

use crate::first::earlier;
use fcp_model::{Call, Clause, Code, Expr, Fault, Item, Term};

/// Whether a term may stand in an expression.
fn is_operand(term: &Term) -> bool
    ensures { result ≡ spec.is_operand term.now }
{
    match term {
        Term::Int(_) | Term::Var(_) | Term::Ro(_) => true,
        Term::Str(_) | Term::Nil | Term::Cons(_, _) | Term::Tuple(_) => false,
    }
}

/// The first wrong leaf of an expression. The calls nest as deep as the expression.
fn wrong_leaf(expr: &Expr) -> Option<Fault>
    ensures { result ≡ first_of (faults_at Code.BadExpression (spec.wrong_leaves expr.now)) }
{
    match expr {
        Expr::Leaf(term, at) => if is_operand(term) {
            None
        } else {
            Some(Fault {
                code: Code::BadExpression,
                at: *at,
            })
        },
        Expr::Op(_, left, right) => earlier(wrong_leaf(left.get()), wrong_leaf(right.get())),
    }
}

/// The first wrong leaf of a call.
fn leaf_in_call(call: &Call) -> Option<Fault>
    ensures { result ≡ first_of (faults_at Code.BadExpression (spec.leaves_in_call call.now)) }
{
    match call {
        Call::Assign(_, expr) => wrong_leaf(expr),
        Call::Compare(_, left, right) => earlier(wrong_leaf(left), wrong_leaf(right)),
        Call::User { name: _, args: _ } => None,
        Call::Unify(_, _) | Call::Same(_, _) | Call::NotSame(_, _) => None,
    }
}

/// The first wrong leaf of some items.
pub fn leaf_in_items(items: &[Item]) -> Option<Fault>
    ensures { result ≡ first_of (faults_at Code.BadExpression (spec.leaves_in items.now)) }
{
    let mut first = None;
    for item in items {
        first = earlier(first, leaf_in_call(&item.call));
    }
    first
}

/// The first wrong leaf of some clauses, in their guards and their bodies.
pub fn leaf_in_clauses(clauses: &[Clause]) -> Option<Fault>
    ensures { result ≡ first_of (faults_at Code.BadExpression (leaves_of_clauses clauses.now)) }
{
    let mut first = None;
    for clause in clauses {
        let guard = leaf_in_items(clause.guard.as_slice());
        let body = leaf_in_items(clause.body.as_slice());
        first = earlier(first, earlier(guard, body));
    }
    first
}
