//! What is still to be written.
ghost use Rattle.std.specs.Prelude.{◌≡◌, ◌++◌, [], ◌∷◌, OnOk};

use fcp_model::NoMemory;
use std::alloc::Global;

/// A kind of brackets.
#[derive(Clone, Copy, Debug, PartialEq, Eq)]
pub(crate) enum Bracket {
    Square,
    Round,
    Curly,
}

/// What is still to be written.
#[derive(Clone, Copy, Debug, PartialEq, Eq)]
pub(crate) enum Item {
    /// A term, by its word.
    Term(u64),
    /// The rest of a list up to its bracket, by its word.
    Rest(u64),
    /// So many parts whose words come after the address, each after a comma.
    Parts(u32, u32),
    /// A closing bracket.
    Close(Bracket),
}

/// The lists of a call of `value_text`: what is still to be written, and the text of one value. They keep their memory between
/// calls, so a call takes none for them where an earlier one had as much to do.
#[derive(Drop)]
pub struct TextLists {
    pub(crate) items: Vec<Item>,
    pub(crate) leaf: Vec<u8>,
}

impl TextLists {
    /// Lists that took no memory yet.
    pub fn make(alloc: Global) -> TextLists {
        TextLists {
            items: Vec::new(alloc),
            leaf: Vec::new(alloc),
        }
    }
}

/// Puts an item on top of the others.
pub(crate) fn push_item(items: &mut Vec<Item>, item: Item) -> Result<(), NoMemory>
    ensures { OnOk result (items.new.items ≡ items.old.items ++ item ∷ []) }
{
    match items.push(item) {
        Ok(()) => Ok(()),
        Err(_) => Err(NoMemory),
    }
}
