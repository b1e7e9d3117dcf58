ghost use Rattle.std.specs.Prelude.{◌≡◌, ◌≤◌, ◌<◌, ◌∷◌, length, slice_index};
ghost use Rattle.std.specs.Slots.{slots_len, IsFull};

use crate::view::Nothing;
use fcp_model::Seq;
use std::alloc::Global;

/// The words of a store that is closed, where they lay. To close a store takes no memory.
pub struct ClosedWords {
    pub(crate) table: atomic_table::Closed<Nothing, Global>,
    pub(crate) len: usize,
    ghost full: { IsFull table.words },
    ghost bare: { slots_len table.slots ≡ 0 },
    ghost fits: { len ≤ slots_len table.words },
}

/// What is left of a store that is closed: its words, and its entries in order of number.
#[derive(Drop)]
pub struct Closed<L> {
    pub words: ClosedWords,
    pub log: Seq<L>,
}

impl ClosedWords {
    ghost use Rattle.word_commit.specs.ClosedWords.{closed_words};

    /// How many words there are.
    pub fn len(&self) -> usize
        ensures { result ≡ length (closed_words self.now) }
    {
        self.len
    }

    /// The word at an address.
    pub fn word(&self, addr: u32) -> u64
        requires { addr < length (closed_words self.now) }
        ensures { result ≡ slice_index (closed_words self.now) addr }
    {
        self.table.word(addr as usize)
    }
}

impl Drop for ClosedWords {
    fn drop(self) {
        let ClosedWords { table, len: _ } = self;
        table.free();
    }
}
