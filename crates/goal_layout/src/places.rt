//! The pieces of a goal's places.
ghost use Rattle.std.specs.Prelude.{◌≡◌, ◌≤◌, None, IfNone, OnSome, replicate};
ghost use Rattle.goal_layout.specs.FirstFit.{first_fit};
ghost use Rattle.goal_layout.specs.Pages.{rooms};
ghost use Rattle.goal_layout.specs.Goals.{AreNew, LaysPlaces};

use heap_words::{Cell, encode};

/// Lays so many places by number, each with its name before its word. A new heap's first page has room for them all.
pub(crate) fn lay_places(words: &mut [u64], vars: u32) -> Option<()>
    requires new { AreNew words.old }
    requires few { vars ≤ 250 }
    ensures none { IfNone result (first_fit (rooms words.old) (replicate vars 2) ≡ None) }
    ensures laid { OnSome result (LaysPlaces vars words.old words.new) }
{
    if vars == 0 {
        return Some(());
    }
    if words.len() == 0 {
        return None;
    }
    for number in 1..vars + 1 {
        words[(2 * number - 1) as usize] = encode(Cell::Small(number as i64));
    }
    words[0] = encode(Cell::Top(2 * vars + 1));
    Some(())
}
