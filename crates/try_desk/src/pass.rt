//! The word that a child takes for a word: where it refers to a place that took a word in this try, that word. So a variable that is
//! handed on from call to call is said in one step.
ghost use Rattle.std.specs.Prelude.{◌≡◌, ◌+◌, ◌<◌, ◌++◌, map, OnOk};
ghost use Rattle.heap_words.specs.Cells.{decoded};
ghost use Rattle.heap_words.specs.Heaps.{only_final};
ghost use Rattle.beside_words.specs.Besides.{own_at};
ghost use Rattle.trial_laws.specs.NewPieces.{taken, marked_word, passed};
ghost use Rattle.try_desk.specs.Desks.{pieces_at_hand};
ghost use Rattle.try_desk.specs.Held.{held, held_terms};

use crate::pieces::{OWN, Pieces};
use crate::slots::{Slots, put_word};
use fcp_model::NoMemory;
use heap_words::{Cell, Trail, decode, encode, is_final};

/// The own word at an address.
fn own_word(words: &[u64], addr: u32) -> Option<u64>
    ensures { result ≡ own_at words.now addr }
{
    if addr < OWN {
        None
    } else {
        words.get((addr - OWN) as usize).copied()
    }
}

/// The word, where it is final.
fn only_final(word: Option<u64>) -> Option<u64>
    ensures { result ≡ only_final word }
{
    match word {
        Some(word) => if is_final(word) { Some(word) } else { None },
        None => None,
    }
}

/// A word as a read-only occurrence.
fn marked(word: u64) -> u64
    ensures { result ≡ marked_word word (decoded word) }
{
    match decode(word) {
        Some(Cell::Ref(place)) => encode(Cell::RoRef(place)),
        _ => word,
    }
}

impl Pieces {
    /// The word that a place took in this try: that to which it is bound, or that which it took at its first occurrence.
    fn taken(&self, trail: &Trail, addr: u32) -> Option<u64>
        ensures { result ≡ taken (pieces_at_hand self.now trail.now.binds) addr }
    {
        let word = match trail.bound(addr) {
            Some(word) => Some(word),
            None => own_word(self.words(), addr),
        };
        only_final(word)
    }

    /// The word that a child takes for a word.
    pub(crate) fn passed(&self, trail: &Trail, word: u64) -> u64
        ensures { result ≡ passed (pieces_at_hand self.now trail.now.binds) word }
    {
        match decode(word) {
            Some(Cell::Ref(place)) => match self.taken(trail, place) {
                Some(other) => other,
                None => word,
            },
            Some(Cell::RoRef(place)) => match self.taken(trail, place) {
                Some(other) => marked(other),
                None => word,
            },
            _ => word,
        }
    }

    /// Puts what a child takes for the words of so many slots, as terms, after the other words of a list.
    pub(crate) fn pass(
        &self,
        trail: &Trail,
        slots: &Slots,
        line: &mut Vec<u64>,
        first: u32,
        count: u32,
    ) -> Result<(), NoMemory>
        requires { first + count < 4294967296 }
        ensures { OnOk result (line.new.items
            ≡ line.old.items ++ map (passed (pieces_at_hand self.now trail.now.binds)) (held_terms (held slots.now) first count)) }
    {
        for i in 0..count {
            put_word(line, self.passed(trail, slots.term(first + i)))?;
        }
        Ok(())
    }
}
