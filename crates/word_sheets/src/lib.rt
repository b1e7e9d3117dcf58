//! Words for tests: a list, of which a load gives those that fit where they stand.
#![tactic(auto)]

ghost use Rattle.std.specs.Prelude.{◌≡◌, ◌<◌, ◌≤◌, ◌++◌, [], ◌∷◌, None, Some, IfOk, OnOk, OnErr, length};
ghost use Rattle.heap_words.specs.Cells.{decoded};
ghost use Rattle.heap_words.specs.Heaps.{only_final};
ghost use Rattle.word_sheets.specs.Sheets.{is_among_places, is_head, does_fit, fitting, word_in, LeadsIn};
ghost use Rattle.word_sheets.specs.SheetLaws.{sheet_laws};
ghost use Rattle.word_sheets.specs.declared.Sheet.{Sheet};

use fcp_model::NoMemory;
use heap_words::{Cell, Words, decode};
use std::alloc::Global;

/// A sheet takes words up to this number.
const MOST: usize = 16_000_000;

/// Blocks of 128 words by turns for places and for the words of terms. A word that leads to a higher address, or as to a part to a
/// block of places, is taken for the empty list; so is a count but for the first word of a block, and each status and top.
#[derive(Drop)]
pub struct Sheet {
    pub words: Vec<u64>,
}

impl Sheet {
    /// A sheet without words.
    pub fn make(alloc: Global) -> Sheet
        ensures { result.words.items ≡ [] }
    {
        Sheet {
            words: Vec::new(alloc),
        }
    }

    /// Puts a word at the end, and answers its address. A sheet that is full is as want of memory.
    pub fn put(&mut self, word: u64) -> Result<u32, NoMemory>
        ensures put { OnOk result (self.new.words.items ≡ self.old.words.items ++ word ∷ []) }
        ensures at { IfOk result (λ a. a ≡ length self.old.words.items) }
        ensures few { OnOk result (length self.new.words.items ≤ 16000000) }
        ensures stays { OnErr result (self.new.words.items ≡ self.old.words.items) }
    {
        let at = self.words.len();
        if at >= MOST {
            return Err(NoMemory);
        }
        match self.words.push(word) {
            Ok(()) => Ok(at as u32),
            Err(_) => Err(NoMemory),
        }
    }
}

fn is_place(addr: u64) -> bool
    ensures { result ≡ is_among_places addr }
{
    addr / 128 % 2 == 0
}

fn is_first(addr: u64) -> bool
    ensures { result ≡ is_head addr }
{
    addr % 256 == 128
}

/// Whether a cell fits at an address.
fn fits(addr: u32, cell: Cell) -> bool
    ensures { result ≡ does_fit addr cell }
{
    match cell {
        Cell::Unbound(entry) => entry == 0 && is_place(addr as u64),
        Cell::Ref(place) => place < addr,
        Cell::RoRef(place) => place < addr,
        Cell::Small(_) => true,
        Cell::Wide(low, _) => low < addr && !is_place(low as u64),
        Cell::Str(_) => true,
        Cell::Nil => true,
        Cell::Cons(at) => {
            let first = at as u64;
            let second = first + 1;
            second < addr as u64 && (!is_place(first) && (!is_place(second) && !is_first(first)))
        }
        Cell::Tuple(at) => at as u64 + 66 < addr as u64 && is_first(at as u64),
        Cell::Status(_) => false,
        Cell::Raw(_) => is_first(addr as u64),
        Cell::Top(_) => false,
    }
}

/// The word that a load gives for the one that stands there.
fn given(addr: u32, word: u64) -> u64
    ensures { result ≡ fitting addr (decoded word) word }
{
    match decode(word) {
        Some(cell) => if fits(addr, cell) { word } else { 6 },
        None => 6,
    }
}

impl Words for Sheet {
    ghost addresses = { λ s. length s.words.items };

    ghost sound = { λ s. length s.words.items ≤ 4000000000 };

    ghost knows = { λ s a. a < length s.words.items };

    ghost had = { λ s a x. word_in s.words.items a ≡ Some x };

    ghost leads = { λ s x. LeadsIn s.words.items x };

    ghost own = { λ s a. None };

    ghost shown = { λ s a. only_final (word_in s.words.items a) };

    ghost later = { λ r s. r.words.items ≡ s.words.items };

    ghost gave = { λ r s a x. (r.words.items ≡ s.words.items) × (word_in s.words.items a ≡ Some x) };

    ghost once = { λ r s a x. (r.words.items ≡ s.words.items) × (word_in s.words.items a ≡ Some x) };

    ghost laws = { sheet_laws (λ (s : Sheet). s.words.items) };

    fn load(&mut self, addr: u32) -> u64 {
        given(addr, self.words[addr as usize])
    }
}
