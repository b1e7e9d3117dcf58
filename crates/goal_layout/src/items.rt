//! An item's pieces: those of its terms, and then its process.
ghost use Rattle.std.specs.Prelude.{◌≡◌, ℕ, ◌+◌, ◌<◌, ◌≤◌, ◌++◌, [], ◌∷◌, None, IfNone, IfSome, OnSome, length, map};
ghost use Rattle.fcp_model.specs.declared.source.Module.{Module};
ghost use Rattle.fcp_model.specs.Programs.{unifies, assigns};
ghost use Rattle.fcp_model.specs.ClosedPrograms.{Over, AllOver, ExprOver, GoalOver, IsNumbered};
ghost use Rattle.fcp_model.specs.Translation.{term_of, expr_of};
ghost use Rattle.goal_layout.specs.FirstFit.{first_fit};
ghost use Rattle.goal_layout.specs.PieceSizes.{all_sizes, goal_sizes};
ghost use Rattle.goal_layout.specs.Pages.{ArePages, rooms};
ghost use Rattle.goal_layout.specs.Items.{AllNarrow, IsNumberIn, IsLayable, LaysItem, LaysCall, LaysUnify, LaysAssign, called};
ghost use Rattle.goal_layout.specs.Laying.{IsNarrow, IsNarrowExpr};

use crate::expressions::lay_expr;
use crate::processes::lay_process;
use crate::terms::lay_term;
use fcp_model::{Call, Expr, Term};

/// How many arguments a process has at most.
const MOST_ARGUMENTS: usize = 64;

/// Lays the pieces of a call's arguments, and its process.
fn lay_call(words: &mut [u64], args: &[Term], procedure: u32, number: u32) -> Option<u32>
    requires pages { ArePages words.old }
    requires few { length args.now ≤ 64 }
    requires narrow { AllNarrow (map term_of args.now) }
    requires numbered { (vars : ℕ) × AllOver (IsNumbered vars) (map term_of args.now) }
    ensures none { IfNone result (first_fit (rooms words.old) (all_sizes (map term_of args.now) ++ (4 + length args.now) ∷ []) ≡ None) }
    ensures pages { OnSome result (ArePages words.new) }
    ensures laid { (vars : ℕ) → AllOver (IsNumbered vars) (map term_of args.now)
        → IfSome result (λ p. LaysCall vars (map term_of args.now) procedure number p words.old words.new) }
{
    let mut found = [0; MOST_ARGUMENTS];
    for (place, arg) in args.iter().enumerate() {
        let word = lay_term(words, arg)?;
        found[place] = word;
    }
    lay_process(words, number, procedure, &found[..args.len()])
}

/// Lays the pieces of the two sides of `=`, and its process.
fn lay_unify(
    words: &mut [u64],
    left: &Term,
    right: &Term,
    procedure: u32,
    number: u32,
) -> Option<u32>
    requires pages { ArePages words.old }
    requires narrow { IsNarrow (term_of left.now) × IsNarrow (term_of right.now) }
    requires numbered { (vars : ℕ) × Over (IsNumbered vars) (term_of left.now) × Over (IsNumbered vars) (term_of right.now) }
    ensures none { IfNone result (first_fit (rooms words.old) (goal_sizes (unifies (term_of left.now) (term_of right.now))) ≡ None) }
    ensures pages { OnSome result (ArePages words.new) }
    ensures laid { (vars : ℕ) → Over (IsNumbered vars) (term_of left.now) → Over (IsNumbered vars) (term_of right.now)
        → IfSome result (λ p. LaysUnify vars (term_of left.now) (term_of right.now) procedure number p words.old words.new) }
{
    let first = lay_term(words, left)?;
    let second = lay_term(words, right)?;
    lay_process(words, number, procedure, &[first, second])
}

/// Lays the pieces of the two sides of `:=`, and its process.
fn lay_assign(
    words: &mut [u64],
    left: &Term,
    right: &Expr,
    procedure: u32,
    number: u32,
) -> Option<u32>
    requires pages { ArePages words.old }
    requires narrow { IsNarrow (term_of left.now) × IsNarrowExpr (expr_of right.now) }
    requires numbered { (vars : ℕ) × Over (IsNumbered vars) (term_of left.now) × ExprOver (IsNumbered vars) (expr_of right.now) }
    ensures none { IfNone result (first_fit (rooms words.old) (goal_sizes (assigns (term_of left.now) (expr_of right.now))) ≡ None) }
    ensures pages { OnSome result (ArePages words.new) }
    ensures laid { (vars : ℕ) → Over (IsNumbered vars) (term_of left.now) → ExprOver (IsNumbered vars) (expr_of right.now)
        → IfSome result (λ p. LaysAssign vars (term_of left.now) (expr_of right.now) procedure number p words.old words.new) }
{
    let first = lay_term(words, left)?;
    let second = lay_expr(words, right)?;
    lay_process(words, number, procedure, &[first, second])
}

/// Lays an item whose procedure has this number, and answers the address of its process, which is the one of the second number.
pub(crate) fn lay_item(words: &mut [u64], call: &Call, procedure: u32, number: u32) -> Option<u32>
    requires pages { ArePages words.old }
    requires layable { (m : Module) × IsLayable m call.now procedure }
    ensures none { (m : Module) → IsNumberIn m call.now procedure
        → IfNone result (first_fit (rooms words.old) (goal_sizes (called m call.now)) ≡ None) }
    ensures pages { OnSome result (ArePages words.new) }
    ensures laid { (m : Module) → IsNumberIn m call.now procedure → (vars : ℕ) → GoalOver (IsNumbered vars) (called m call.now)
        → IfSome result (λ p. LaysItem vars (called m call.now) number p words.old words.new) }
{
    match call {
        Call::User { name: _, args } => lay_call(words, args.as_slice(), procedure, number),
        Call::Unify(left, right) => lay_unify(words, left, right, procedure, number),
        Call::Assign(left, right) => lay_assign(words, left, right, procedure, number),
        Call::Same(_, _) | Call::NotSame(_, _) | Call::Compare(_, _, _) => unreachable!(),
    }
}
