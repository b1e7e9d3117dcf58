//! The table of two values.
ghost use Rattle.std.specs.Prelude.{◌≡◌};
ghost use Rattle.ro_unify.specs.Table.{moved};

use crate::look::Look;

/// What is to be done for two values. `Order` has two places of which the younger is bound to the older, `Bind` one to be bound to
/// a read-only occurrence of the other, `Check` one to be bound to a word in which it does not occur, and `Solids` two words whose
/// parts come next.
#[derive(Clone, Copy, Debug, PartialEq, Eq)]
pub enum Move {
    Nothing,
    Wait,
    Order(u32, u32),
    Bind(u32, u32),
    Check(u32, u64),
    Solids(u64, u64),
}

/// What the table says of two values.
pub fn move_of(left: Look, right: Look) -> Move
    ensures { result ≡ moved left right }
{
    match left {
        Look::Writable(p) => match right {
            Look::Writable(q) => if p == q {
                Move::Nothing
            } else {
                Move::Order(p, q)
            },
            Look::ReadOnly(q) => if p == q {
                Move::Nothing
            } else {
                Move::Bind(p, q)
            },
            Look::Solid(word) => Move::Check(p, word),
        },
        Look::ReadOnly(p) => match right {
            Look::Writable(q) => if p == q {
                Move::Nothing
            } else {
                Move::Bind(q, p)
            },
            Look::ReadOnly(q) => if p == q { Move::Nothing } else { Move::Wait },
            Look::Solid(_) => Move::Wait,
        },
        Look::Solid(word) => match right {
            Look::Writable(q) => Move::Check(q, word),
            Look::ReadOnly(_) => Move::Wait,
            Look::Solid(other) => Move::Solids(word, other),
        },
    }
}
