//! The trail of a try: what it bound privately, what it read unbound, and the words that it loaded.
ghost use Rattle.std.specs.Prelude.{◌≡◌, ◌++◌, [], ◌∷◌, ◌≤◌, None, IfOk, OnOk, OnErr, MatchResult, slice_get, option_map};
ghost use Rattle.heap_words.specs.Trails.{word_at, under, AreOnce, Holds, KeepsLoads, Says};

use crate::word_table::WordTable;
use crate::words::{OWN, Words};
use fcp_model::NoMemory;
use std::alloc::Global;

/// What a try did so far. Contracts see three lists: the private bindings and the kept words, each an address with a word, and
/// the places read.
#[derive(Drop)]
pub struct Trail {
    binds: WordTable,
    reads: Vec<u32>,
    kept: WordTable,
}

impl Trail {
    /// A trail with nothing on it.
    pub fn make(alloc: Global) -> Result<Trail, NoMemory>
        ensures binds { IfOk result (λ t. t.binds ≡ []) }
        ensures reads { IfOk result (λ t. t.reads.items ≡ []) }
        ensures kept { IfOk result (λ t. t.kept ≡ []) }
    {
        Ok(Trail {
            binds: WordTable::make(alloc),
            reads: Vec::new(alloc),
            kept: WordTable::make(alloc),
        })
    }

    /// Keeps a loaded word. Where memory runs out, the trail stays as it was.
    fn keep(&mut self, addr: u32, word: u64) -> Result<(), NoMemory>
        requires { word_at self.old.kept addr ≡ None }
        ensures kept { MatchResult result (λ _. self.new.kept ≡ self.old.kept ++ (addr, word) ∷ [])
            (λ _. self.new.kept ≡ self.old.kept) }
        ensures binds { self.new.binds ≡ self.old.binds }
        ensures reads { self.new.reads.items ≡ self.old.reads.items }
    {
        self.kept.put(addr, word)
    }

    /// The word at a known address, with no look at private bindings. It is kept from now on, where it is none of the
    /// try's own pieces. Where memory runs out, the trail stays as it was.
    pub fn word<W: Words>(&mut self, words: &mut W, addr: u32) -> Result<u64, NoMemory>
        requires sound { W.sound words.old }
        requires known { W.knows words.old addr }
        requires holds { Holds W.had W.leads self.old.kept self.old.binds words.old }
        ensures between { W.later words.old words.new }
        ensures binds { self.new.binds ≡ self.old.binds }
        ensures reads { self.new.reads.items ≡ self.old.reads.items }
        ensures loaded { OnOk result (KeepsLoads W.sound W.had W.leads W.later W.gave self.old.kept self.old.binds words.old self.new.kept
            self.new.binds words.new) }
        ensures stays { OnErr result (self.new.kept ≡ self.old.kept) }
        ensures word { IfOk result (λ x. Says (W.own words.new) self.new.kept (λ m. m addr ≡ x)) }
        ensures had { IfOk result (λ x. W.had words.new addr x) }
    {
        if let Some(word) = self.kept.get(addr) {
            return Ok(word);
        }
        let word = words.load(addr);
        if addr < OWN {
            self.keep(addr, word)?;
        }
        Ok(word)
    }

    /// The word that an address is privately bound to.
    pub fn bound(&self, addr: u32) -> Option<u64>
        ensures { result ≡ word_at self.now.binds addr }
    {
        self.binds.get(addr)
    }

    /// The word at an address under the private bindings; where it is not bound, as `word` gives it.
    pub fn look<W: Words>(&mut self, words: &mut W, addr: u32) -> Result<u64, NoMemory>
        requires sound { W.sound words.old }
        requires known { word_at self.old.binds addr ≡ None → W.knows words.old addr }
        requires holds { Holds W.had W.leads self.old.kept self.old.binds words.old }
        ensures between { W.later words.old words.new }
        ensures binds { self.new.binds ≡ self.old.binds }
        ensures reads { self.new.reads.items ≡ self.old.reads.items }
        ensures loaded { OnOk result (KeepsLoads W.sound W.had W.leads W.later W.gave self.old.kept self.old.binds words.old self.new.kept
            self.new.binds words.new) }
        ensures stays { OnErr result (self.new.kept ≡ self.old.kept) }
        ensures word { IfOk result (λ x. Says (W.own words.new) self.new.kept (λ m. under self.old.binds m addr ≡ x)) }
        ensures leads { IfOk result (λ x. W.leads words.new x) }
    {
        match self.bound(addr) {
            Some(word) => Ok(word),
            None => self.word(words, addr),
        }
    }

    /// Binds an address that is not bound privately. Where memory runs out, the trail stays as it was.
    pub fn bind(&mut self, addr: u32, word: u64) -> Result<(), NoMemory>
        requires { word_at self.old.binds addr ≡ None }
        ensures binds { MatchResult result (λ _. self.new.binds ≡ self.old.binds ++ (addr, word) ∷ [])
            (λ _. self.new.binds ≡ self.old.binds) }
        ensures reads { self.new.reads.items ≡ self.old.reads.items }
        ensures kept { self.new.kept ≡ self.old.kept }
    {
        self.binds.put(addr, word)
    }

    /// Notes that a place was read unbound. Where memory runs out, the trail stays as it was.
    pub fn note_read(&mut self, place: u32) -> Result<(), NoMemory>
        ensures binds { self.new.binds ≡ self.old.binds }
        ensures reads { MatchResult result (λ _. self.new.reads.items ≡ self.old.reads.items ++ place ∷ [])
            (λ _. self.new.reads.items ≡ self.old.reads.items) }
        ensures kept { self.new.kept ≡ self.old.kept }
    {
        match self.reads.push(place) {
            Ok(()) => Ok(()),
            Err(_) => Err(NoMemory),
        }
    }

    /// The private binding at a position from 0, in the order in which they were made; `None` past the end.
    pub fn bound_at(&self, at: usize) -> Option<(u32, u64)>
        ensures { result ≡ slice_get self.now.binds at }
    {
        self.binds.at(at)
    }

    /// The place read at a position from 0; `None` past the end.
    pub fn read_at(&self, at: usize) -> Option<u32>
        ensures { result ≡ slice_get self.now.reads.items at }
    {
        self.reads.get(at).copied()
    }

    /// The kept word at a position from 0, in the order in which they were loaded; `None` past the end.
    pub fn kept_at(&self, at: usize) -> Option<(u32, u64)>
        ensures { result ≡ slice_get self.now.kept at }
    {
        self.kept.at(at)
    }

    /// The word that is kept for an address.
    pub fn kept_word(&self, addr: u32) -> Option<u64>
        ensures { result ≡ word_at self.now.kept addr }
    {
        self.kept.get(addr)
    }

    /// The private bindings, in the order in which they were made.
    pub fn bound_words(&self) -> &[(u32, u64)]
        ensures { result.now ≡ self.now.binds }
    {
        self.binds.entries()
    }

    /// The places read, in the order in which they were noted.
    pub fn places_read(&self) -> &[u32]
        ensures { result.now ≡ self.now.reads.items }
    {
        self.reads.as_slice()
    }

    /// The kept words, in the order in which they were loaded.
    pub fn kept_words(&self) -> &[(u32, u64)]
        ensures { result.now ≡ self.now.kept }
    {
        self.kept.entries()
    }

    /// Each address is bound once, and kept once. This does nothing: its contract is the law.
    pub fn once(&self)
        ensures binds { AreOnce self.now.binds }
        ensures kept { AreOnce self.now.kept }
    {
        self.binds.once();
        self.kept.once();
    }

    /// Drops the places read alone.
    pub fn forget_reads(&mut self)
        ensures binds { self.new.binds ≡ self.old.binds }
        ensures reads { self.new.reads.items ≡ [] }
        ensures kept { self.new.kept ≡ self.old.kept }
    {
        self.reads.clear();
    }

    /// Drops the private bindings alone.
    pub fn undo(&mut self)
        ensures binds { self.new.binds ≡ [] }
        ensures reads { self.new.reads.items ≡ self.old.reads.items }
        ensures kept { self.new.kept ≡ self.old.kept }
    {
        self.binds.clear();
    }

    /// Drops everything.
    pub fn clear(&mut self)
        ensures binds { self.new.binds ≡ [] }
        ensures reads { self.new.reads.items ≡ [] }
        ensures kept { self.new.kept ≡ [] }
    {
        self.undo();
        self.forget_reads();
        self.kept.clear();
    }
}
