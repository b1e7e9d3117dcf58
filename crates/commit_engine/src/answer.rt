//! What a turn answers.

use heap_words::Stand;

/// Which quota does not do.
#[derive(Clone, Copy, Debug, PartialEq, Eq)]
pub enum Spent {
    Moves,
    Commits,
    Cells { needed: u32, left: u32 },
}

/// How a turn of a process ended.
#[derive(Clone, Copy, Debug, PartialEq, Eq)]
pub enum Turn {
    /// It made a commit, whose entry has this number.
    Committed { number: u64 },
    /// It made a hang.
    Hung { number: u64 },
    /// The process fails; no entry was made.
    Fails,
    /// The process is not Ready.
    Gone(Stand),
    /// Another worker holds the page.
    Busy { page: u32 },
    /// A word that was read has changed.
    Stale { addr: u32, kept: u64, found: u64 },
    Spent(Spent),
    NoMemory,
}
