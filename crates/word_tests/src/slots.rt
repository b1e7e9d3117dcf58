//! Words of processes and of waiting entries: a list, of which a load gives the words that fit where they stand.
ghost use Rattle.std.specs.Prelude.{◌≡◌, ◌<◌, ◌≤◌, None, Some, length};
ghost use Rattle.heap_words.specs.Cells.{decoded};
ghost use Rattle.heap_words.specs.Heaps.{only_final};
ghost use Rattle.word_tests.specs.Slots.{is_entry, in_entry, does_fit, fitting, word_in, LeadsIn};
ghost use Rattle.word_tests.specs.SlotLaws.{slot_laws};
ghost use Rattle.word_tests.specs.declared.slots.Slots.{Slots};

use heap_words::{Cell, Words, decode};

/// Slots of eight words: the first four are those of a process, and at the fifth a waiting entry begins. A word that does not fit
/// there is taken for the empty list.
#[derive(Drop)]
pub(crate) struct Slots {
    pub(crate) words: Vec<u64>,
}

fn is_first(addr: u64) -> bool
    ensures { result ≡ is_entry addr }
{
    addr % 8 == 4
}

fn is_inside(addr: u64) -> bool
    ensures { result ≡ in_entry addr }
{
    addr % 8 > 3
}

/// Whether a cell fits at an address among so many.
fn fits(count: usize, addr: u32, cell: Cell) -> bool
    ensures { result ≡ does_fit count addr cell }
{
    match cell {
        Cell::Unbound(entry) => {
            !is_inside(addr as u64)
                && (entry == 0 || (is_first(entry as u64) && entry as u64 + 2 < count as u64))
        }
        Cell::Small(_) => true,
        Cell::Nil => true,
        Cell::Cons(link) => is_first(link as u64) && link as u64 + 2 < addr as u64,
        Cell::Status(_) => addr % 8 == 0 && addr as u64 + 3 < count as u64,
        Cell::Raw(process) => is_first(addr as u64) && process < addr,
        _ => false,
    }
}

/// The word that a load gives for the one that stands there.
fn given(count: usize, addr: u32, word: u64) -> u64
    ensures { result ≡ fitting count addr (decoded word) word }
{
    match decode(word) {
        Some(cell) => if fits(count, addr, cell) { word } else { 6 },
        None => 6,
    }
}

impl Words for Slots {
    ghost addresses = { λ s. length s.words.items };

    ghost sound = { λ s. length s.words.items ≤ 4000000000 };

    ghost knows = { λ s a. a < length s.words.items };

    ghost had = { λ s a x. word_in s.words.items a ≡ Some x };

    ghost leads = { λ s x. LeadsIn s.words.items x };

    ghost own = { λ s a. None };

    ghost shown = { λ s a. only_final (word_in s.words.items a) };

    ghost later = { λ r s. r.words.items ≡ s.words.items };

    ghost gave = { λ r s a x. (r.words.items ≡ s.words.items) × (word_in s.words.items a ≡ Some x) };

    ghost once = { λ r s a x. (r.words.items ≡ s.words.items) × (word_in s.words.items a ≡ Some x) };

    ghost laws = { slot_laws (λ (s : Slots). s.words.items) };

    fn load(&mut self, addr: u32) -> u64 {
        given(self.words.len(), addr, self.words[addr as usize])
    }
}
