//! Which words are those of terms.
ghost use Rattle.std.specs.Prelude.{◌≡◌, ◌↔◌, true};
ghost use Rattle.trial_laws.specs.Leading.{IsTermWord};

use heap_words::{Cell, decode};

/// Whether a word may be a term's: it is no unbound place, no status, no top of a list and no number of parts.
pub fn is_term(word: u64) -> bool
    ensures { (result ≡ true) ↔ IsTermWord word }
{
    match decode(word) {
        Some(Cell::Unbound(_)) => false,
        Some(Cell::Status(_)) => false,
        Some(Cell::Top(_)) => false,
        Some(Cell::Raw(_)) => false,
        _ => true,
    }
}
