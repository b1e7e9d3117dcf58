//! Tests of `fcp_grammar`: an item with an expression.
use fcp_grammar::{ItemStep, Side, Terminal, step_side};
use fcp_model::{ArithOp, Call, Expr, Item, Term};
use std::alloc::Global;
use std::test::Fail;

/// The item that ends before the last of the terminals.
fn item_of(alloc: Global, terminals: &[Terminal]) -> Result<Option<Item>, Fail> {
    let mut side = Side::Start;
    for terminal in terminals {
        match step_side(alloc, false, side, *terminal)? {
            ItemStep::Goes(next, _) => side = next,
            ItemStep::Ends(item) => return Ok(Some(item)),
            ItemStep::Refused => return Ok(None),
        }
    }
    Ok(None)
}

/// `X := 1 - 2 * 3` from place 7 on.
#[test]
fn an_item_has_its_value(rt: HostRuntime) -> Result<(), Fail> {
    let terminals = [
        Terminal::Var(1, 7),
        Terminal::Assign,
        Terminal::Int(1, 12),
        Terminal::Operator(ArithOp::Sub, 14),
        Terminal::Int(2, 16),
        Terminal::Operator(ArithOp::Mul, 18),
        Terminal::Int(3, 20),
        Terminal::Dot(1),
    ];
    let item = item_of(rt.alloc(), &terminals)?.ok_or("no item")?;
    assert_eq!(rt; item.at, 7);
    let Call::Assign(Term::Var(1), Expr::Op(ArithOp::Sub, one, product)) = &item.call else {
        return Err("not the item".into());
    };
    assert!(rt; matches!(one.get(), Expr::Leaf(Term::Int(1), 12)));
    let Expr::Op(ArithOp::Mul, two, three) = product.get() else {
        return Err("not the product".into());
    };
    assert!(rt; matches!(two.get(), Expr::Leaf(Term::Int(2), 16)));
    assert!(rt; matches!(three.get(), Expr::Leaf(Term::Int(3), 20)));
    Ok(())
}
