//! Words with their addresses, and words that are laid together.

use fcp_model::Seq;

/// A word that was found at an address, or is to be written there.
#[derive(Clone, Copy, Debug, PartialEq, Eq)]
pub struct Seen {
    pub addr: u32,
    pub word: u64,
}

/// Words that are laid one after another in one page: at most 96.
#[derive(Drop)]
pub struct Piece {
    pub words: Seq<u64>,
}
