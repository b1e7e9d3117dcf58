//! Operations as words: a tuple whose number of parts is that of an operator.
ghost use Rattle.std.specs.Prelude.{◌≡◌, IfOk, OnOk};
ghost use Rattle.heap_words.specs.Cells.{decoded};
ghost use Rattle.heap_words.specs.Trails.{Holds, KeepsLoads, Says};
ghost use Rattle.stored_expressions.specs.Listing.{tuple_of, operator_of, operator_in, located, operation_of, OperandsKnown};

use fcp_model::{ArithOp, NoMemory};
use heap_words::{Cell, Trail, Words, decode};

/// Where a tuple has its number of parts; `None` for any other word.
fn tuple_in(word: u64) -> Option<u32>
    ensures { result ≡ tuple_of (decoded word) }
{
    match decode(word) {
        Some(Cell::Tuple(at)) => Some(at),
        _ => None,
    }
}

/// The operator of a number.
fn operator(number: u32) -> Option<ArithOp>
    ensures { result ≡ operator_of number }
{
    if number == 66 {
        Some(ArithOp::Add)
    } else if number == 67 {
        Some(ArithOp::Sub)
    } else if number == 68 {
        Some(ArithOp::Mul)
    } else if number == 69 {
        Some(ArithOp::Div)
    } else if number == 70 {
        Some(ArithOp::Mod)
    } else {
        None
    }
}

/// The operator whose number a word says.
fn operator_at(word: u64) -> Option<ArithOp>
    ensures { result ≡ operator_in (decoded word) }
{
    match decode(word) {
        Some(Cell::Raw(number)) => operator(number),
        _ => None,
    }
}

/// An operator with the address of its number.
fn with_address(op: Option<ArithOp>, at: u32) -> Option<(ArithOp, u32)>
    ensures { result ≡ located op at }
{
    match op {
        Some(op) => Some((op, at)),
        None => None,
    }
}

/// The operation that a word is, by its operator and the address of the operator's number, behind which the operands stand.
pub fn operation<W: Words>(
    trail: &mut Trail,
    words: &mut W,
    word: u64,
) -> Result<Option<(ArithOp, u32)>, NoMemory>
    requires sound { W.sound words.old }
    requires holds { Holds W.had W.leads trail.old.kept trail.old.binds words.old }
    requires leads { W.leads words.old word }
    ensures between { W.later words.old words.new }
    ensures loaded { OnOk result (KeepsLoads W.sound W.had W.leads W.later W.gave trail.old.kept trail.old.binds words.old
        trail.new.kept trail.new.binds words.new) }
    ensures binds { trail.new.binds ≡ trail.old.binds }
    ensures reads { trail.new.reads.items ≡ trail.old.reads.items }
    ensures operation { IfOk result (λ o. Says (W.own words.new) trail.new.kept (λ m. operation_of m word ≡ o)) }
    ensures known { IfOk result (OperandsKnown (W.knows words.new)) }
{
    match tuple_in(word) {
        None => Ok(None),
        Some(at) => {
            let number = trail.word(words, at)?;
            Ok(with_address(operator_at(number), at))
        }
    }
}
