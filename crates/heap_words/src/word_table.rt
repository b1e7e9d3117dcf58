//! A list of words by address. Beside it a position is noted for each address up to the highest that was ever put, at which the
//! address might stand. What is noted is looked at in the list, so dropping the list's words is enough to forget them all.
ghost use Rattle.std.specs.Prelude.{◌≡◌, ◌++◌, [], ◌∷◌, ℕ, Some, None, OnOk, MatchResult, slice_get};
ghost use Rattle.heap_words.specs.Trails.{word_at};
ghost use Rattle.heap_words.specs.Trails.{AreOnce};
ghost use Rattle.heap_words.specs.WordTables.{noted_at};

use crate::words::OWN;
use fcp_model::NoMemory;
use std::alloc::Global;
use std::marker::Model;

/// Positions by address: those of own addresses in a list of their own.
#[derive(Drop)]
struct Positions {
    low: Vec<u32>,
    high: Vec<u32>,
}

/// Notes a position at an index of a list, which grows up to it. Where memory runs out, nothing is noted.
fn note_in(noted: &mut Vec<u32>, index: u32, at: u32) -> Result<(), NoMemory>
    ensures others { (b i : ℕ) → slice_get noted.old.items b ≡ Some i → (b ≡ index → ⊥) → slice_get noted.new.items b ≡ Some i }
    ensures there { OnOk result (slice_get noted.new.items index ≡ Some at) }
{
    while noted.len() <= index as usize {
        if noted.push(0).is_err() {
            return Err(NoMemory);
        }
    }
    noted[index as usize] = at;
    Ok(())
}

impl Positions {
    /// The position that is noted for an address.
    fn of(&self, addr: u32) -> Option<u32>
        ensures { result ≡ noted_at self.now.low.items self.now.high.items addr }
    {
        if addr < OWN {
            self.low.get(addr as usize).copied()
        } else {
            self.high.get((addr - OWN) as usize).copied()
        }
    }

    /// Notes a position for an address, and leaves those of the others.
    fn note(&mut self, addr: u32, at: u32) -> Result<(), NoMemory>
        ensures others { (b i : ℕ) → noted_at self.old.low.items self.old.high.items b ≡ Some i → (b ≡ addr → ⊥)
            → noted_at self.new.low.items self.new.high.items b ≡ Some i }
        ensures there { OnOk result (noted_at self.new.low.items self.new.high.items addr ≡ Some at) }
    {
        if addr < OWN {
            note_in(&mut self.low, addr, at)
        } else {
            note_in(&mut self.high, addr - OWN, at)
        }
    }
}

/// Addresses with their words, each address once. Contracts see the list, in the order in which the words were put.
#[derive(Drop)]
pub(crate) struct WordTable {
    list: Vec<(u32, u64)>,
    noted: Positions,
}

impl Model for WordTable {
    ghost use Rattle.std.specs.Prelude.{ℕ, List};
    ghost use Rattle.heap_words.specs.WordTables.{noted_at, Notes};

    ghost Value = { List (ℕ × ℕ) };

    ghost view = { λ t. t.list.items };

    ghost invariant = { λ t. Notes (noted_at t.noted.low.items t.noted.high.items) t.list.items };
}

/// The entry of a list at a position from 0.
fn entry(list: &[(u32, u64)], at: usize) -> Option<(u32, u64)>
    ensures { result ≡ slice_get list.now at }
{
    list.get(at).copied()
}

impl WordTable {
    /// No words. It takes no memory.
    pub(crate) fn make(alloc: Global) -> WordTable
        ensures { result ≡ [] }
    {
        WordTable {
            list: Vec::new(alloc),
            noted: Positions {
                low: Vec::new(alloc),
                high: Vec::new(alloc),
            },
        }
    }

    /// The word at an address.
    pub(crate) fn get(&self, addr: u32) -> Option<u64>
        ensures { result ≡ word_at self.now addr }
    {
        let Some(at) = self.noted.of(addr) else {
            return None;
        };
        let Some(found) = entry(self.list.as_slice(), at as usize) else {
            return None;
        };
        if found.0 == addr { Some(found.1) } else { None }
    }

    /// Puts the word of an address that has none. Where memory runs out, the list stays as it was.
    pub(crate) fn put(&mut self, addr: u32, word: u64) -> Result<(), NoMemory>
        requires { word_at self.old addr ≡ None }
        ensures { MatchResult result (λ _. self.new ≡ self.old ++ (addr, word) ∷ []) (λ _. self.new ≡ self.old) }
    {
        let at = self.list.as_slice().len();
        if at >= 0xffff_ffff {
            return Err(NoMemory);
        }
        self.noted.note(addr, at as u32)?;
        match self.list.push((addr, word)) {
            Ok(()) => {}
            Err(_) => return Err(NoMemory),
        }
        Ok(())
    }

    /// The entry at a position from 0; `None` past the end.
    pub(crate) fn at(&self, at: usize) -> Option<(u32, u64)>
        ensures { result ≡ slice_get self.now at }
    {
        self.list.get(at).copied()
    }

    /// All entries, in the order in which they were put.
    pub(crate) fn entries(&self) -> &[(u32, u64)]
        ensures { result.now ≡ self.now }
    {
        self.list.as_slice()
    }

    /// Each address stands in the list once. This changes nothing: its contract is the law.
    pub(crate) fn once(&self)
        ensures { AreOnce self.now }
    {
        let _list = self.list.as_slice();
    }

    /// Drops all words.
    pub(crate) fn clear(&mut self)
        ensures { self.new ≡ [] }
    {
        self.list.clear();
    }
}
