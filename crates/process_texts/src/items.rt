//! What is still to be written of an expression.
ghost use Rattle.std.specs.Prelude.{◌≡◌, ◌++◌, [], ◌∷◌, OnOk};

use fcp_model::{ArithOp, NoMemory, Place};
use std::alloc::Global;
use word_texts::TextLists;

/// A piece of an expression: an operand by its word, an operator, or a closing parenthesis.
#[derive(Clone, Copy, Debug, PartialEq, Eq)]
pub(crate) enum Item {
    Operand(u64),
    Operator(ArithOp),
    Close,
}

/// The lists of a call: what is still to be written, and the places on which a process waits. They keep their memory between calls, so a
/// call takes none for them where an earlier one had as much to do.
#[derive(Drop)]
pub struct ProcessLists {
    pub(crate) texts: TextLists,
    pub(crate) items: Vec<Item>,
    pub(crate) places: Vec<Place>,
}

impl ProcessLists {
    /// Lists that took no memory yet.
    pub fn make(alloc: Global) -> ProcessLists {
        ProcessLists {
            texts: TextLists::make(alloc),
            items: Vec::new(alloc),
            places: Vec::new(alloc),
        }
    }
}

/// Puts an item on top of the others.
pub(crate) fn push_item(items: &mut Vec<Item>, item: Item) -> Result<(), NoMemory>
    ensures { OnOk result (items.new.items ≡ items.old.items ++ item ∷ []) }
{
    match items.push(item) {
        Ok(()) => Ok(()),
        Err(_) => Err(NoMemory),
    }
}
