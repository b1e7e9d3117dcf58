//! What a machine has at hand for a try. It is made once, and a try takes no memory but where a list grows.
use crate::pieces::Pieces;
use crate::slots::Slots;

/// The slots and the pieces of a try, the number of its clause, where the trial goes on if it does not succeed, and whether all
/// tries before it failed; and a list in which the words of a piece are gathered.
#[derive(Drop)]
pub struct Desk {
    pub slots: Slots,
    pub pieces: Pieces,
    pub clause: u32,
    pub next: u32,
    pub behind: bool,
    pub line: Vec<u64>,
}
