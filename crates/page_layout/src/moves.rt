//! Words of a try whose references become those of the store.
ghost use Rattle.std.specs.Prelude.{◌≡◌};
ghost use Rattle.word_states.specs.Layouts.{moved};
ghost use Rattle.page_layout.specs.Laying.{moved_to};

use heap_words::{Cell, OWN, decode, encode};

/// Where a word goes to which a try's word refers: those of the store stay.
pub fn goes_to(table: &[u32], addr: u32) -> u32
    ensures { result ≡ moved_to table.now addr }
{
    if addr < OWN {
        return addr;
    }
    match table.get((addr - OWN) as usize) {
        Some(to) => *to,
        None => addr,
    }
}

/// The word after each address has become what the table gives it.
pub fn relocate(table: &[u32], word: u64) -> u64
    ensures { result ≡ moved (moved_to table.now) word }
{
    match decode(word) {
        Some(Cell::Ref(addr)) => encode(Cell::Ref(goes_to(table, addr))),
        Some(Cell::RoRef(addr)) => encode(Cell::RoRef(goes_to(table, addr))),
        Some(Cell::Wide(addr, high)) => encode(Cell::Wide(goes_to(table, addr), high)),
        Some(Cell::Cons(addr)) => encode(Cell::Cons(goes_to(table, addr))),
        Some(Cell::Tuple(addr)) => encode(Cell::Tuple(goes_to(table, addr))),
        _ => word,
    }
}
