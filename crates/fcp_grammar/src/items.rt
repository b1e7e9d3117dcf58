//! Reading items, one terminal after another.
ghost use Rattle.std.specs.Prelude.{◌≡◌, IfOk};
ghost use Rattle.fcp_grammar.specs.Items as spec;

use crate::expressions::{is_nothing, nothing};
use crate::operands::behind_operand;
use crate::sides::{Equation, ItemStep, LeftSide, Side, Sums, TermSign};
use crate::stack::Stack;
use crate::terminals::{Terminal, ends_item};
use crate::terms::{Phase, TermAt, Told, is_large, opens_group, place_of, start, step, term_of};
use fcp_model::{Call, Expr, Item, NoMemory, Seq, Term};
use std::alloc::Global;

/// Nothing waits.
fn is_fresh(sums: &Sums) -> bool
    ensures { result ≡ spec.is_fresh sums.now }
{
    if !sums.groups.is_empty() {
        return false;
    }
    match sums.left {
        LeftSide::Compared(_, _) | LeftSide::Assigned(_) => false,
        LeftSide::Nothing => is_nothing(&sums.level),
    }
}

/// The call of a procedure.
#[tactic(auto, unfolding(crate::specs::Items::call_item))]
fn call_item(alloc: Global, at: u32, phase: Phase) -> ItemStep
    ensures { result ≡ spec.call_item at phase }
{
    match phase {
        Phase::Named(_, name) => ItemStep::Ends(Item {
            at,
            call: Call::User {
                name,
                args: Seq::empty(alloc),
            },
        }),
        Phase::Called(_, name, args) => ItemStep::Ends(Item {
            at,
            call: Call::User { name, args },
        }),
        _ => ItemStep::Refused,
    }
}

/// A sign between two terms behind the first.
fn equate(alloc: Global, at: u32, phase: Phase, sign: TermSign) -> Result<ItemStep, NoMemory>
    ensures { IfOk result (λ r. r ≡ spec.equate at phase sign) }
{
    let equation = Equation {
        at,
        left: term_of(phase)?,
        sign,
    };
    Ok(ItemStep::Goes(Side::Equal(equation, start(alloc)), false))
}

/// A `:=` behind the first term.
fn assign(alloc: Global, at: u32, phase: Phase) -> Result<ItemStep, NoMemory>
    ensures { IfOk result (λ r. r ≡ spec.assign at phase) }
{
    let sums = Sums {
        at,
        left: LeftSide::Assigned(term_of(phase)?),
        groups: Stack::empty(alloc),
        level: nothing(),
        operators: 0,
    };
    Ok(ItemStep::Goes(Side::Sum(sums, start(alloc)), false))
}

/// The terminal behind a term that is an operand.
fn behind_leaf(
    alloc: Global,
    sums: Sums,
    phase: Phase,
    terminal: Terminal,
) -> Result<ItemStep, NoMemory>
    ensures { IfOk result (λ r. r ≡ spec.behind_leaf sums phase terminal) }
{
    let place = place_of(&phase);
    behind_operand(alloc, sums, Expr::Leaf(term_of(phase)?, place), terminal)
}

/// The terminal behind the first term of an item, in no bracket.
#[tactic(auto, unfolding(crate::specs::Items::behind_first))]
fn behind_first(
    alloc: Global,
    sums: Sums,
    phase: Phase,
    terminal: Terminal,
) -> Result<ItemStep, NoMemory>
    ensures { IfOk result (λ r. r ≡ spec.behind_first sums phase terminal) }
{
    if ends_item(terminal) {
        return Ok(call_item(alloc, sums.at, phase));
    }
    match terminal {
        Terminal::Equals => equate(alloc, sums.at, phase, TermSign::Equals),
        Terminal::Same => equate(alloc, sums.at, phase, TermSign::Same),
        Terminal::NotSame => equate(alloc, sums.at, phase, TermSign::NotSame),
        Terminal::Assign => assign(alloc, sums.at, phase),
        _ => behind_leaf(alloc, sums, phase, terminal),
    }
}

/// The terminal behind a term in no bracket of a term.
#[tactic(auto, unfolding(crate::specs::Items::behind_whole))]
fn behind_whole(
    alloc: Global,
    sums: Sums,
    phase: Phase,
    terminal: Terminal,
) -> Result<ItemStep, NoMemory>
    ensures { IfOk result (λ r. r ≡ spec.behind_whole sums phase terminal) }
{
    if is_fresh(&sums) {
        behind_first(alloc, sums, phase, terminal)
    } else {
        behind_leaf(alloc, sums, phase, terminal)
    }
}

/// A `(` of an expression.
fn inside(alloc: Global, sums: Sums) -> Result<Sums, NoMemory>
    ensures { IfOk result (λ s. s ≡ spec.inside sums) }
{
    let Sums {
        at,
        left,
        mut groups,
        level,
        operators,
    } = sums;
    groups.push(level)?;
    Ok(Sums {
        at,
        left,
        groups,
        level: nothing(),
        operators,
    })
}

#[tactic(auto, unfolding(crate::specs::Items::step_sum, crate::specs::Items::sum_told))]
fn step_sum(
    alloc: Global,
    mark: bool,
    sums: Sums,
    at: TermAt,
    terminal: Terminal,
) -> Result<ItemStep, NoMemory>
    ensures { IfOk result (λ r. r ≡ spec.step_sum mark sums at terminal) }
{
    let first = is_fresh(&sums) && mark;
    let large = is_large(first, &at, terminal);
    let opens = opens_group(&at, terminal);
    match step(alloc, at, terminal)? {
        Told::Read(next) => Ok(ItemStep::Goes(Side::Sum(sums, next), large)),
        Told::Whole(phase) => behind_whole(alloc, sums, phase, terminal),
        Told::Refused => {
            if opens {
                Ok(ItemStep::Goes(Side::Sum(inside(alloc, sums)?, start(alloc)), first))
            } else {
                Ok(ItemStep::Refused)
            }
        }
    }
}

/// The item of two terms.
fn equation_item(equation: Equation, right: Term) -> Item
    ensures { result ≡ spec.equation_item equation right }
{
    let Equation { at, left, sign } = equation;
    let call = match sign {
        TermSign::Equals => Call::Unify(left, right),
        TermSign::Same => Call::Same(left, right),
        TermSign::NotSame => Call::NotSame(left, right),
    };
    Item { at, call }
}

#[tactic(auto, unfolding(crate::specs::Items::step_equal))]
fn step_equal(
    alloc: Global,
    equation: Equation,
    at: TermAt,
    terminal: Terminal,
) -> Result<ItemStep, NoMemory>
    ensures { IfOk result (λ r. r ≡ spec.step_equal equation at terminal) }
{
    let large = is_large(false, &at, terminal);
    match step(alloc, at, terminal)? {
        Told::Read(next) => Ok(ItemStep::Goes(Side::Equal(equation, next), large)),
        Told::Whole(phase) => {
            if ends_item(terminal) {
                Ok(ItemStep::Ends(equation_item(equation, term_of(phase)?)))
            } else {
                Ok(ItemStep::Refused)
            }
        }
        Told::Refused => Ok(ItemStep::Refused),
    }
}

/// The place of a terminal that may begin an item.
fn place(terminal: Terminal) -> u32
    ensures { result ≡ spec.place terminal }
{
    match terminal {
        Terminal::Int(_, at) => at,
        Terminal::Str(_, _, at) => at,
        Terminal::Var(_, at) => at,
        Terminal::RoundOpen(at) => at,
        Terminal::SquareOpen(at) => at,
        Terminal::CurlyOpen(at) => at,
        _ => 0,
    }
}

/// One more terminal of an item. `mark` says that the item is one too many, so that its first terminal is marked.
/// `NoMemory` is the only error.
#[tactic(auto, unfolding(crate::specs::Items::step_side))]
pub fn step_side(
    alloc: Global,
    mark: bool,
    side: Side,
    terminal: Terminal,
) -> Result<ItemStep, NoMemory>
    ensures { IfOk result (λ r. r ≡ spec.step_side mark side terminal) }
{
    match side {
        Side::Start => {
            let sums = Sums {
                at: place(terminal),
                left: LeftSide::Nothing,
                groups: Stack::empty(alloc),
                level: nothing(),
                operators: 0,
            };
            step_sum(alloc, mark, sums, start(alloc), terminal)
        }
        Side::Equal(equation, at) => step_equal(alloc, equation, at, terminal),
        Side::Sum(sums, at) => step_sum(alloc, mark, sums, at, terminal),
        Side::Closed(sums, operand) => behind_operand(alloc, sums, operand, terminal),
    }
}
