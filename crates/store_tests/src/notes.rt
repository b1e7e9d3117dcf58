ghost use Rattle.store_tests.specs.Notes.{notes};
ghost use Rattle.store_tests.specs.NoteLaws.{note_laws};

use word_commit::{Fits, Quota};

/// The least word of a note: such words are final.
pub const LEAST_NOTE: u64 = 1 << 40;

/// A new word at a page's top, which holds the entry's number.
#[derive(Clone, Copy, Debug, PartialEq, Eq)]
pub struct Note {
    pub page: u32,
    pub top: u32,
}

/// Notes at the tops of pages. They are final, and a word refers to nothing. A note costs a cell and no move.
pub struct Notes;

impl Fits for Notes {
    type Entry = Note;

    type Logged = Note;

    ghost means = { notes };

    ghost logged = { λ e. e };

    fn read(entry: &Note, at: u32) -> Option<(u32, u64)> {
        match at {
            0 => Some((entry.page.wrapping_mul(1024), u64::from(entry.top))),
            _ => None,
        }
    }

    fn write(entry: &Note, at: u32, number: u64) -> Option<(u32, u64)> {
        match at {
            0 => Some((entry.top, LEAST_NOTE + number)),
            1 => Some((entry.page.wrapping_mul(1024), u64::from(entry.top) + 1)),
            _ => None,
        }
    }

    fn cost(_entry: &Note) -> Quota {
        Quota {
            commits: 0,
            moves: 0,
            cells: 1,
        }
    }

    fn into_logged(entry: Note) -> Note {
        entry
    }

    ghost laws = { note_laws };
}
