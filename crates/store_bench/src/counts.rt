//! Entries that add one to a word.
ghost use Rattle.store_bench.specs.Counts.{counts};
ghost use Rattle.store_bench.specs.CountLaws.{count_laws};

use word_commit::{Fits, Quota};

/// One more in the word at an address, and what was there before.
#[derive(Clone, Copy, Debug, PartialEq, Eq)]
pub(crate) struct Count {
    pub addr: u32,
    pub had: u64,
}

/// Entries of one read and one write. No word is final, and a word refers to nothing. An entry costs a move.
pub(crate) struct Counts;

impl Fits for Counts {
    type Entry = Count;

    type Logged = Count;

    ghost means = { counts };

    ghost logged = { λ e. e };

    fn read(entry: &Count, at: u32) -> Option<(u32, u64)> {
        match at {
            0 => Some((entry.addr, entry.had)),
            _ => None,
        }
    }

    fn write(entry: &Count, at: u32, _number: u64) -> Option<(u32, u64)> {
        match at {
            0 => Some((entry.addr, entry.had.wrapping_add(1))),
            _ => None,
        }
    }

    fn cost(_entry: &Count) -> Quota {
        Quota {
            commits: 0,
            moves: 1,
            cells: 0,
        }
    }

    fn into_logged(entry: Count) -> Count {
        entry
    }

    ghost laws = { count_laws };
}
