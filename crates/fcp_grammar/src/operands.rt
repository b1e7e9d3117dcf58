//! The terminal behind an operand.
ghost use Rattle.std.specs.Prelude.{◌≡◌, IfOk};
ghost use Rattle.fcp_grammar.specs.Operands as spec;

use crate::expressions::{before, nothing, whole};
use crate::limits::MOST_OPERATORS;
use crate::sides::{ItemStep, LeftSide, Side, Sums};
use crate::terminals::{StringForm, Terminal, ends_item};
use crate::terms::start;
use fcp_model::{ArithOp, Call, CompareOp, Expr, Item, NoMemory};
use std::alloc::Global;

fn more(count: u32) -> u32
    ensures { result ≡ spec.more count }
{
    if count <= MOST_OPERATORS {
        count + 1
    } else {
        count
    }
}

fn after_operator(
    alloc: Global,
    sums: Sums,
    operator: ArithOp,
    operand: Expr,
) -> Result<ItemStep, NoMemory>
    ensures { IfOk result (λ r. r ≡ spec.after_operator sums operator operand) }
{
    let Sums {
        at,
        left,
        groups,
        level,
        operators,
    } = sums;
    let next = Sums {
        at,
        left,
        groups,
        level: before(alloc, level, operator, operand)?,
        operators: more(operators),
    };
    Ok(ItemStep::Goes(Side::Sum(next, start(alloc)), operators >= MOST_OPERATORS))
}

/// Behind the `)` the parenthesis is an operand of what stood before it.
fn behind_close(alloc: Global, sums: Sums, operand: Expr) -> Result<ItemStep, NoMemory>
    ensures { IfOk result (λ r. r ≡ spec.behind_close sums operand) }
{
    let Sums {
        at,
        left,
        mut groups,
        level,
        operators,
    } = sums;
    match groups.pop() {
        None => Ok(ItemStep::Refused),
        Some(outer) => {
            let inner = whole(alloc, level, operand)?;
            let next = Sums {
                at,
                left,
                groups,
                level: outer,
                operators,
            };
            Ok(ItemStep::Goes(Side::Closed(next, inner), false))
        }
    }
}

/// An item has one comparison, and none behind a `:=`.
fn behind_comparison(
    alloc: Global,
    sums: Sums,
    comparison: CompareOp,
    operand: Expr,
) -> Result<ItemStep, NoMemory>
    ensures { IfOk result (λ r. r ≡ spec.behind_comparison sums comparison operand) }
{
    let Sums {
        at,
        left,
        groups,
        level,
        operators,
    } = sums;
    if !groups.is_empty() {
        return Ok(ItemStep::Refused);
    }
    match left {
        LeftSide::Nothing => {
            let next = Sums {
                at,
                left: LeftSide::Compared(whole(alloc, level, operand)?, comparison),
                groups,
                level: nothing(),
                operators,
            };
            Ok(ItemStep::Goes(Side::Sum(next, start(alloc)), false))
        }
        LeftSide::Compared(_, _) | LeftSide::Assigned(_) => Ok(ItemStep::Refused),
    }
}

/// An expression alone is no item.
fn behind_item(alloc: Global, sums: Sums, operand: Expr) -> Result<ItemStep, NoMemory>
    ensures { IfOk result (λ r. r ≡ spec.behind_item sums operand) }
{
    let Sums {
        at,
        left,
        groups,
        level,
        operators: _,
    } = sums;
    if !groups.is_empty() {
        return Ok(ItemStep::Refused);
    }
    match left {
        LeftSide::Nothing => Ok(ItemStep::Refused),
        LeftSide::Compared(left, comparison) => Ok(ItemStep::Ends(Item {
            at,
            call: Call::Compare(comparison, left, whole(alloc, level, operand)?),
        })),
        LeftSide::Assigned(left) => Ok(ItemStep::Ends(Item {
            at,
            call: Call::Assign(left, whole(alloc, level, operand)?),
        })),
    }
}

/// The terminal behind an operand, as far as nothing but operands may stand there.
#[tactic(auto, unfolding(crate::specs::Operands::behind_operand))]
pub fn behind_operand(
    alloc: Global,
    sums: Sums,
    operand: Expr,
    terminal: Terminal,
) -> Result<ItemStep, NoMemory>
    ensures { IfOk result (λ r. r ≡ spec.behind_operand sums operand terminal) }
{
    if ends_item(terminal) {
        return behind_item(alloc, sums, operand);
    }
    match terminal {
        Terminal::Operator(operator, _) => match operator {
            ArithOp::Mod => Ok(ItemStep::Refused),
            _ => after_operator(alloc, sums, operator, operand),
        },
        Terminal::Str(_, StringForm::Mod, _) => after_operator(alloc, sums, ArithOp::Mod, operand),
        Terminal::RoundClose => behind_close(alloc, sums, operand),
        Terminal::Compare(comparison) => behind_comparison(alloc, sums, comparison, operand),
        _ => Ok(ItemStep::Refused),
    }
}
