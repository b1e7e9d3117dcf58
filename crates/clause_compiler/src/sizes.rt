//! The variables of clauses, and the cells of commits by them.
ghost use Rattle.std.specs.Prelude.{◌≡◌, ◌<◌, length, map, sum_by, List, IfOk};
ghost use Rattle.fcp_model.specs.declared.loaded.ProcedureName.{ProcedureName};
ghost use Rattle.fcp_model.specs.ProcedureNames.{procedure_names};
ghost use Rattle.fcp_model.specs.Translation.{term_of, expr_of, goal_of, goals_of, clause_of, program_of};
ghost use Rattle.fcp_model.specs.Cells.{term_cells, terms_cells, expr_cells, goal_cells};
ghost use Rattle.head_code.specs.TermCode.{parts_of};
ghost use Rattle.machine_code.specs.Correct.{clause_size};
ghost use Rattle.clause_compiler.specs.ClauseCode.{clauses_in};

use fcp_model::{Call, Clause, Expr, Item, Loaded, NoMemory, Term};
use head_code::up;
use machine_code::ClauseSize;
use std::alloc::Global;

/// The cells of a term. A list's rest is walked in a loop, since a list may be long; calls nest as deep as brackets.
#[cycle(cells)]
fn term_cells(term: &Term) -> Result<u32, NoMemory>
    ensures { IfOk result (λ n. n ≡ term_cells (term_of term.now)) }
{
    let mut cells = 0;
    let mut rest = term;
    while let Term::Cons(head, tail) = rest {
        cells = up(up(cells, 3)?, term_cells(head.get())?)?;
        rest = tail.get();
    }
    match rest {
        Term::Cons(_, _) => unreachable!(),
        Term::Tuple(terms) => up(up(cells, 1)?, part_cells(terms.as_slice())?),
        Term::Int(_) => up(cells, 1),
        Term::Str(_) => Ok(cells),
        Term::Nil => Ok(cells),
        Term::Var(_) => Ok(cells),
        Term::Ro(_) => Ok(cells),
    }
}

/// The cells of a tuple's parts, with one for each part.
#[cycle(cells)]
fn part_cells(terms: &[Term]) -> Result<u32, NoMemory>
    ensures { IfOk result (λ n. n ≡ terms_cells (parts_of terms.now)) }
{
    let mut cells = 0;
    for term in terms {
        cells = up(up(cells, 1)?, term_cells(term)?)?;
    }
    Ok(cells)
}

/// The cells of an expression.
fn expr_cells(expr: &Expr) -> Result<u32, NoMemory>
    ensures { IfOk result (λ n. n ≡ expr_cells (expr_of expr.now)) }
{
    match expr {
        Expr::Leaf(term, _) => term_cells(term),
        Expr::Op(_, left, right) => {
            let left = up(3, expr_cells(left.get())?)?;
            up(left, expr_cells(right.get())?)
        }
    }
}

/// The cells of arguments together.
fn argument_cells(args: &[Term]) -> Result<u32, NoMemory>
    ensures { IfOk result (λ n. n ≡ sum_by term_cells (map term_of args.now)) }
{
    let mut cells = 0;
    for term in args {
        cells = up(cells, term_cells(term)?)?;
    }
    Ok(cells)
}

/// The cells of an item of a body.
fn goal_cells(call: &Call) -> Result<u32, NoMemory>
    ensures { (hs : List ProcedureName) → IfOk result (λ n. n ≡ goal_cells (goal_of hs call.now)) }
{
    match call {
        Call::User { name: _, args } => {
            let Ok(count) = u32::try_from(args.len()) else {
                return Err(NoMemory);
            };
            up(up(4, count)?, argument_cells(args.as_slice())?)
        }
        Call::Unify(left, right) => up(up(6, term_cells(left)?)?, term_cells(right)?),
        Call::Assign(left, right) => up(up(6, term_cells(left)?)?, expr_cells(right)?),
        Call::Same(_, _) => Ok(4),
        Call::NotSame(_, _) => Ok(4),
        Call::Compare(_, _, _) => Ok(4),
    }
}

/// The cells of a body.
fn body_cells(items: &[Item]) -> Result<u32, NoMemory>
    ensures { (hs : List ProcedureName) → IfOk result (λ n. n ≡ sum_by goal_cells (goals_of hs items.now)) }
{
    let mut cells = 0;
    for item in items {
        cells = up(cells, goal_cells(&item.call)?)?;
    }
    Ok(cells)
}

/// The variables of a clause, and the cells of a commit by it.
fn clause_size(clause: &Clause) -> Result<ClauseSize, NoMemory>
    ensures { (hs : List ProcedureName) → IfOk result (λ s. s ≡ clause_size (clause_of hs clause.now)) }
{
    let head = argument_cells(clause.args.as_slice())?;
    let body = body_cells(clause.body.as_slice())?;
    Ok(ClauseSize {
        vars: clause.vars,
        cells: up(up(2 * u32::from(clause.vars), head)?, body)?,
    })
}

/// The sizes of a procedure's clauses, in the order of the text.
pub fn clause_sizes(
    alloc: Global,
    loaded: &Loaded,
    procedure: u32,
) -> Result<Vec<ClauseSize>, NoMemory>
    requires { procedure < length (procedure_names loaded.now.clauses) }
    ensures { IfOk result (λ v. v.items ≡ map clause_size (clauses_in (program_of loaded.now) procedure)) }
{
    let clauses = loaded.module().clauses.as_slice();
    let places = loaded.clauses(procedure);
    let mut sizes = Vec::new(alloc);
    for place in places {
        let Ok(()) = sizes.push(clause_size(&clauses[*place as usize])?) else {
            return Err(NoMemory);
        };
    }
    Ok(sizes)
}
