//! What waits for an operand in an expression.
ghost use Rattle.std.specs.Prelude.{◌≡◌, IfOk};
ghost use Rattle.fcp_grammar.specs.Expressions as spec;

use fcp_model::{ArithOp, Expr, NoMemory};
use sqlite_items::Boxed;
use std::alloc::Global;

/// An operator with its left operand, or nothing.
#[derive(Drop)]
pub enum LeftOperand {
    Nothing,
    /// The left operand and its operator.
    Operator(Expr, ArithOp),
}

/// What waits for an operand in one parenthesis, or in none.
#[derive(Drop)]
pub struct Level {
    /// The `+` or `-` before the product that is being read.
    pub sum: LeftOperand,
    /// The `*`, `/` or `mod` before the operand that is being read.
    pub product: LeftOperand,
}

/// No operator waits.
pub fn nothing() -> Level
    ensures { result ≡ spec.nothing }
{
    Level {
        sum: LeftOperand::Nothing,
        product: LeftOperand::Nothing,
    }
}

/// Whether no operator waits.
pub fn is_nothing(level: &Level) -> bool
    ensures { result ≡ spec.is_nothing level.now }
{
    match level.sum {
        LeftOperand::Operator(_, _) => false,
        LeftOperand::Nothing => match level.product {
            LeftOperand::Operator(_, _) => false,
            LeftOperand::Nothing => true,
        },
    }
}

fn operation(alloc: Global, operator: ArithOp, left: Expr, right: Expr) -> Result<Expr, NoMemory>
    ensures { IfOk result (λ e. e ≡ spec.operation operator left right) }
{
    let Ok(left) = Boxed::new(alloc, left) else {
        return Err(NoMemory);
    };
    let Ok(right) = Boxed::new(alloc, right) else {
        return Err(NoMemory);
    };
    Ok(Expr::Op(operator, left, right))
}

fn join(alloc: Global, left: LeftOperand, right: Expr) -> Result<Expr, NoMemory>
    ensures { IfOk result (λ e. e ≡ spec.join left right) }
{
    match left {
        LeftOperand::Nothing => Ok(right),
        LeftOperand::Operator(e, operator) => operation(alloc, operator, e, right),
    }
}

/// The whole expression of the level, with its last operand.
pub fn whole(alloc: Global, level: Level, operand: Expr) -> Result<Expr, NoMemory>
    ensures { IfOk result (λ e. e ≡ spec.whole level operand) }
{
    let product = join(alloc, level.product, operand)?;
    join(alloc, level.sum, product)
}

/// What waits behind one more operand and the operator behind it.
pub fn before(
    alloc: Global,
    level: Level,
    operator: ArithOp,
    operand: Expr,
) -> Result<Level, NoMemory>
    ensures { IfOk result (λ l. l ≡ spec.before level operator operand) }
{
    match operator {
        ArithOp::Add | ArithOp::Sub => Ok(Level {
            sum: LeftOperand::Operator(whole(alloc, level, operand)?, operator),
            product: LeftOperand::Nothing,
        }),
        ArithOp::Mul | ArithOp::Div | ArithOp::Mod => {
            let product = join(alloc, level.product, operand)?;
            Ok(Level {
                sum: level.sum,
                product: LeftOperand::Operator(product, operator),
            })
        }
    }
}
