//! Words are taken in pages, each time in the first page that has so many free ones.
ghost use Rattle.std.specs.Prelude.{◌≡◌, ◌+◌, ◌*◌, ◌<◌, ◌≤◌, None, IfSome, OnSome, IfNone, length};
ghost use Rattle.heap_words.specs.Cells.{decoded};
ghost use Rattle.heap_words.specs.Heaps.{top_said};
ghost use Rattle.goal_layout.specs.FirstFit.{fit};
ghost use Rattle.goal_layout.specs.Pages.{rooms, ArePages, Takes};

use heap_words::{Cell, decode, encode};

const PAGE: u32 = 1024;

/// The address that a page's first word says, or 0 where it is no top.
fn top_of(word: u64) -> u32
    ensures { result ≡ top_said (decoded word) }
{
    match decode(word) {
        Some(Cell::Top(top)) => top,
        _ => 0,
    }
}

/// Takes so many free words in the first page that has them, and answers the address of the first. They are 0.
pub(crate) fn take(words: &mut [u64], size: u32) -> Option<u32>
    requires pages { ArePages words.old }
    requires some { 0 < size }
    ensures none { IfNone result (fit size (rooms words.old) ≡ None) }
    ensures taken { IfSome result (λ a. Takes words.old words.new size a) }
{
    for page in 0..words.len() as u32 / PAGE {
        let first = PAGE * page;
        let top = top_of(words[first as usize]);
        if size <= first + PAGE - top {
            words[first as usize] = encode(Cell::Top(top + size));
            return Some(top);
        }
    }
    None
}
