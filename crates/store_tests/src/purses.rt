ghost use Rattle.store_tests.specs.Purses.{purses};
ghost use Rattle.store_tests.specs.PurseLaws.{purse_laws};

use word_commit::{Fits, Quota};

/// One coin goes from a purse to another: their addresses, and what was in them before.
#[derive(Clone, Copy, Debug, PartialEq, Eq)]
pub struct Transfer {
    pub from: u32,
    pub to: u32,
    pub had: u64,
    pub owned: u64,
}

/// Transfers between purses. No word is final, and a word refers to nothing.
pub struct Purses;

impl Fits for Purses {
    type Entry = Transfer;

    type Logged = Transfer;

    ghost means = { purses };

    ghost logged = { λ e. e };

    fn read(entry: &Transfer, at: u32) -> Option<(u32, u64)> {
        match at {
            0 => Some((entry.from, entry.had)),
            1 => Some((entry.to, entry.owned)),
            _ => None,
        }
    }

    fn write(entry: &Transfer, at: u32, _number: u64) -> Option<(u32, u64)> {
        match at {
            0 => Some((entry.from, entry.had.saturating_sub(1))),
            1 => Some((entry.to, entry.owned.wrapping_add(1))),
            _ => None,
        }
    }

    fn cost(_entry: &Transfer) -> Quota {
        Quota {
            commits: 0,
            moves: 1,
            cells: 0,
        }
    }

    fn into_logged(entry: Transfer) -> Transfer {
        entry
    }

    ghost laws = { purse_laws };
}
