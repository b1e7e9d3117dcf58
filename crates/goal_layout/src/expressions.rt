//! The pieces of expressions: an operator with its two operands stands as a tuple of two parts does.
ghost use Rattle.std.specs.Prelude.{◌≡◌, ℕ, None, IfNone, IfSome, OnSome};
ghost use Rattle.fcp_model.specs.ClosedPrograms.{ExprOver, IsNumbered};
ghost use Rattle.fcp_model.specs.Translation.{expr_of};
ghost use Rattle.word_states.specs.Denoting.{operator_code};
ghost use Rattle.goal_layout.specs.FirstFit.{first_fit};
ghost use Rattle.goal_layout.specs.PieceSizes.{expr_sizes};
ghost use Rattle.goal_layout.specs.Pages.{ArePages, rooms};
ghost use Rattle.goal_layout.specs.Laying.{IsNarrowExpr, LaysExpr};

use crate::pages::take;
use crate::terms::lay_term;
use fcp_model::{ArithOp, Expr};
use heap_words::{Cell, encode};

/// Below this a `Raw` is a number of parts, and from it on an operator.
const OPERATORS: u32 = 66;

/// The number of an operator.
fn operator(op: ArithOp) -> u32
    ensures { result ≡ operator_code op }
{
    match op {
        ArithOp::Add => 0,
        ArithOp::Sub => 1,
        ArithOp::Mul => 2,
        ArithOp::Div => 3,
        ArithOp::Mod => 4,
    }
}

/// The word of an expression, whose pieces are laid. Calls nest as deep as its operators, of which an item has at most 256.
pub(crate) fn lay_expr(words: &mut [u64], expr: &Expr) -> Option<u64>
    requires pages { ArePages words.old }
    requires narrow { IsNarrowExpr (expr_of expr.now) }
    requires numbered { (vars : ℕ) × ExprOver (IsNumbered vars) (expr_of expr.now) }
    ensures none { IfNone result (first_fit (rooms words.old) (expr_sizes (expr_of expr.now)) ≡ None) }
    ensures pages { OnSome result (ArePages words.new) }
    ensures laid { (vars : ℕ) → ExprOver (IsNumbered vars) (expr_of expr.now)
        → IfSome result (λ x. LaysExpr vars (expr_of expr.now) x words.old words.new) }
{
    match expr {
        Expr::Leaf(term, _) => lay_term(words, term),
        Expr::Op(op, left, right) => {
            let at = take(words, 3)?;
            words[at as usize] = encode(Cell::Raw(OPERATORS + operator(*op)));
            let first = lay_expr(words, left.get())?;
            words[at as usize + 1] = first;
            let second = lay_expr(words, right.get())?;
            words[at as usize + 2] = second;
            Some(encode(Cell::Tuple(at)))
        }
    }
}
