//! A plain heap: pages of 1,024 words, of which the first is the page's top and says the address behind the last word in use.
ghost use Rattle.std.specs.Prelude.{◌≡◌, ℕ, ◌+◌, ◌-◌, ◌*◌, ◌<◌, ◌≤◌, true, None, Some, IfOk, length, slice_set};
ghost use Rattle.heap_words.specs.Cells.{decoded};
ghost use Rattle.heap_words.specs.Heaps.{IsHeap, RefersInside, AreFresh, fresh_word, top_said, top_at, is_inside, inside_at, final_at};
ghost use Rattle.heap_words.specs.HeapLaws.{heap_laws};

use crate::cell::{Cell, decode, encode};
use crate::words::Words;
use fcp_model::NoMemory;
use std::alloc::Global;

const PAGE: u32 = 1024;

/// Words that stay as they are but where `store` writes. Contracts see their list, in the order of the addresses.
#[derive(Drop)]
pub struct PlainHeap {
    words: Vec<u64>,
}

/// The word that a new heap has at an address: a top that says the next address, or an unbound place for which none waits.
fn fresh(addr: u32) -> u64
    requires { addr < 4000000000 }
    ensures { result ≡ fresh_word addr }
{
    if addr % PAGE == 0 {
        encode(Cell::Top(addr + 1))
    } else {
        0
    }
}

/// The address that a page's first word says, or 0 where it is no top.
fn top_of(word: u64) -> u32
    ensures { result ≡ top_said (decoded word) }
{
    match decode(word) {
        Some(Cell::Top(top)) => top,
        _ => 0,
    }
}

impl PlainHeap {
    /// A heap of so many pages, at most 3,906,250. No word behind the first of a page is in use.
    pub fn make(alloc: Global, pages: u32) -> Result<PlainHeap, NoMemory>
        requires { pages ≤ 3906250 }
        ensures words { IfOk result (λ h. AreFresh (1024 * pages) h.words.items) }
        ensures heap { IfOk result (λ h. IsHeap h.words.items) }
    {
        let mut words = Vec::new(alloc);
        for addr in 0..PAGE * pages {
            if words.push(fresh(addr)).is_err() {
                return Err(NoMemory);
            }
        }
        Ok(PlainHeap { words })
    }

    /// The heap that these words are, by their addresses. It takes no memory.
    pub fn of_words(words: Vec<u64>) -> PlainHeap
        requires { IsHeap words.items }
        ensures { result.words.items ≡ words.items }
    {
        PlainHeap { words }
    }

    /// Writes a word. The caller sees to it that the words are a heap again: a piece is written behind its page's top, and
    /// then the top is raised.
    pub fn store(&mut self, addr: u32, word: u64)
        requires there { addr < length self.old.words.items }
        requires heap { IsHeap (slice_set self.old.words.items addr word) }
        ensures { self.new.words.items ≡ slice_set self.old.words.items addr word }
    {
        self.words[addr as usize] = word;
    }

    /// How many words of a page, by its number from 0, are free above its top.
    pub fn room(&self, page: u32) -> u32
        requires there { 1024 * page < length self.now.words.items }
        requires heap { IsHeap self.now.words.items }
        ensures { result ≡ 1024 * page + 1024 - top_at self.now.words.items (1024 * page) }
    {
        let first = PAGE * page;
        first + PAGE - top_of(self.words[first as usize])
    }

    /// The words by their addresses. It takes no memory.
    pub fn into_words(self) -> Vec<u64>
        ensures { result.items ≡ self.words.items }
    {
        let PlainHeap { words } = self;
        words
    }
}

impl Words for PlainHeap {
    ghost addresses = { λ h. length h.words.items };

    ghost sound = { λ h. IsHeap h.words.items };

    ghost knows = { λ h a. is_inside h.words.items a ≡ true };

    ghost had = { λ h a x. inside_at h.words.items a ≡ Some x };

    ghost leads = { λ h x. RefersInside h.words.items x };

    ghost own = { λ h a. None };

    ghost shown = { λ h. final_at h.words.items };

    ghost later = { λ g h. g.words.items ≡ h.words.items };

    ghost gave = { λ g h a x. (g.words.items ≡ h.words.items) × (inside_at h.words.items a ≡ Some x) };

    ghost once = { λ g h a x. (g.words.items ≡ h.words.items) × (inside_at h.words.items a ≡ Some x) };

    ghost laws = { heap_laws };

    fn load(&mut self, addr: u32) -> u64 {
        self.words[addr as usize]
    }
}
