//! The cells of a goal. Sums that no 32 bits hold stop at the greatest number that they hold.
ghost use Rattle.std.specs.Prelude.{◌≡◌, ◌+◌, ◌*◌, ◌-◌, ◌^◌, ◌≤◌, length, map, min, sum_by, List};
ghost use Rattle.fcp_model.specs.declared.loaded.ProcedureName.{ProcedureName};
ghost use Rattle.fcp_model.specs.declared.source.Module.{Module};
ghost use Rattle.fcp_model.specs.Translation.{term_of, expr_of, goal_of, goals_of};
ghost use Rattle.fcp_model.specs.Cells.{term_cells, terms_cells, expr_cells, goal_cells};
ghost use Rattle.goal_layout.specs.Laying.{parts_of};
ghost use Rattle.goal_layout.specs.Goals.{at_most, cells_of};

use fcp_model::{Call, Expr, GoalText, Item, Term};

/// The cells of a term. A list's rest is walked in a loop, since a list may be long; calls nest as deep as brackets.
#[cycle(cells)]
fn term_cells(term: &Term) -> u32
    ensures { result ≡ at_most (term_cells (term_of term.now)) }
{
    let mut cells: u32 = 0;
    let mut rest = term;
    while let Term::Cons(head, tail) = rest {
        cells = cells
            .saturating_add(3)
            .saturating_add(term_cells(head.get()));
        rest = tail.get();
    }
    match rest {
        Term::Cons(_, _) => unreachable!(),
        Term::Tuple(terms) => cells
            .saturating_add(1)
            .saturating_add(part_cells(terms.as_slice())),
        Term::Int(_) => cells.saturating_add(1),
        Term::Str(_) => cells,
        Term::Nil => cells,
        Term::Var(_) => cells,
        Term::Ro(_) => cells,
    }
}

/// The cells of a tuple's parts, with one for each part.
#[cycle(cells)]
fn part_cells(terms: &[Term]) -> u32
    ensures { result ≡ at_most (terms_cells (parts_of terms.now)) }
{
    let mut cells: u32 = 0;
    for term in terms {
        cells = cells.saturating_add(1).saturating_add(term_cells(term));
    }
    cells
}

/// The cells of an expression.
fn expr_cells(expr: &Expr) -> u32
    ensures { result ≡ at_most (expr_cells (expr_of expr.now)) }
{
    match expr {
        Expr::Leaf(term, _) => term_cells(term),
        Expr::Op(_, left, right) => {
            let left = expr_cells(left.get()).saturating_add(3);
            left.saturating_add(expr_cells(right.get()))
        }
    }
}

/// The cells of arguments together, with one for each.
fn argument_cells(args: &[Term]) -> u32
    ensures { result ≡ at_most (length args.now + sum_by term_cells (map term_of args.now)) }
{
    let mut cells: u32 = 0;
    for term in args {
        cells = cells.saturating_add(1).saturating_add(term_cells(term));
    }
    cells
}

/// The cells of an item.
fn item_cells(call: &Call) -> u32
    ensures { (hs : List ProcedureName) → result ≡ at_most (goal_cells (goal_of hs call.now)) }
{
    match call {
        Call::User { name: _, args } => argument_cells(args.as_slice()).saturating_add(4),
        Call::Unify(left, right) => term_cells(left)
            .saturating_add(6)
            .saturating_add(term_cells(right)),
        Call::Assign(left, right) => term_cells(left)
            .saturating_add(6)
            .saturating_add(expr_cells(right)),
        Call::Same(_, _) => 4,
        Call::NotSame(_, _) => 4,
        Call::Compare(_, _, _) => 4,
    }
}

/// The cells of items together.
fn item_list_cells(items: &[Item]) -> u32
    ensures { (hs : List ProcedureName) → result ≡ at_most (sum_by goal_cells (goals_of hs items.now)) }
{
    let mut cells: u32 = 0;
    for item in items {
        cells = cells.saturating_add(item_cells(&item.call));
    }
    cells
}

/// The cells of a goal: two for each place, and those of its items.
pub fn goal_cells(goal: &GoalText) -> u32
    requires { length goal.now.names ≤ 250 }
    ensures { (m : Module) → result ≡ at_most (cells_of m goal.now) }
{
    let places = 2 * goal.names.len() as u32;
    item_list_cells(goal.items.as_slice()).saturating_add(places)
}
