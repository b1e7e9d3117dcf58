//! A try's own pieces: their words one after another, and the sizes of the pieces.
ghost use Rattle.std.specs.Prelude.{◌≡◌, ◌++◌, ◌+◌, ◌-◌, ◌<◌, ◌≤◌, [], ◌∷◌, ℕ, suc, Some, length, take, IfOk, OnOk, MatchResult};
ghost use Rattle.std.specs.List.{concat};
ghost use Rattle.heap_words.specs.Trails.{word_at, AreOnce};
ghost use Rattle.word_states.specs.Pieces.{rows, StartsAt};
ghost use Rattle.trial_laws.specs.AtHand.{end_of, ArePieces};
ghost use Rattle.trial_laws.specs.Endings.{settled};
ghost use Rattle.trial_laws.specs.Laws.{IsFilled, places_for};
ghost use Rattle.beside_words.specs.Besides.{own_at};
ghost use Rattle.try_desk.specs.Cuts.{cut, total};

use fcp_model::NoMemory;
use std::alloc::Global;
use std::marker::Model;

/// Addresses from here on are those of a try's own pieces.
pub(crate) const OWN: u32 = 4_000_000_000;

/// So many words the pieces have at most: so their addresses have 32 bits.
const MOST: usize = 268_435_455;

/// So many pieces there are at most: fewer than there are numbers in names.
const MOST_PIECES: usize = 268_435_454;

/// Pieces, in the order in which they were put. Contracts see the list of pieces.
#[derive(Drop)]
pub struct Pieces {
    words: Vec<u64>,
    sizes: Vec<u32>,
}

impl Model for Pieces {
    ghost use Rattle.std.specs.Prelude.{◌≡◌, ◌<◌, ◌≤◌, ℕ, List, length};
    ghost use Rattle.try_desk.specs.Cuts.{cut, total};

    ghost Value = { List (List ℕ) };

    ghost view = { λ p. cut p.words.items p.sizes.items };

    ghost invariant = { λ p. (total p.sizes.items ≡ length p.words.items) × (length p.words.items ≤ 268435455)
        × (length p.sizes.items < 268435455) };
}

/// Puts a size after the others. Where memory runs out, the sizes stay as they were.
fn put_size(sizes: &mut Vec<u32>, size: u32) -> Result<(), NoMemory>
    ensures { MatchResult result (λ _. sizes.new.items ≡ sizes.old.items ++ size ∷ []) (λ _. sizes.new.items ≡ sizes.old.items) }
{
    match sizes.push(size) {
        Ok(()) => Ok(()),
        Err(_) => Err(NoMemory),
    }
}

/// Puts words after the others. Where memory runs out, the words stay as they were.
pub(crate) fn put_words(words: &mut Vec<u64>, more: &[u64]) -> Result<(), NoMemory>
    ensures { MatchResult result (λ _. words.new.items ≡ words.old.items ++ more.now) (λ _. words.new.items ≡ words.old.items) }
{
    match words.extend_from_slice(more) {
        Ok(()) => Ok(()),
        Err(_) => Err(NoMemory),
    }
}

/// How many words the pieces behind the first `count` have, by the sizes of all.
fn words_behind(sizes: &[u32], count: usize) -> usize
    requires { total sizes.now ≤ 268435455 }
    ensures { total (take count sizes.now) + result ≡ total sizes.now }
{
    let mut words = 0;
    for i in count..sizes.len() {
        words += sizes[i] as usize;
    }
    words
}

impl Pieces {
    /// No pieces. It takes no memory.
    pub fn make(alloc: Global) -> Pieces
        ensures { result ≡ [] }
    {
        Pieces {
            words: Vec::new(alloc),
            sizes: Vec::new(alloc),
        }
    }

    /// Drops all pieces, and keeps the memory for others.
    pub fn clear(&mut self)
        ensures { self.new ≡ [] }
    {
        self.words.clear();
        self.sizes.clear();
    }

    /// The address after the pieces.
    pub fn end(&self) -> u32
        ensures { result ≡ end_of 4000000000 self.now }
    {
        OWN + self.words.as_slice().len() as u32
    }

    /// The words of all pieces, the first of which is at 4,000,000,000. They are at most 268,435,455.
    pub fn words(&self) -> &[u64]
        ensures all { result.now ≡ concat self.now }
        ensures few { length result.now ≤ 268435455 }
        ensures placed { (a : ℕ) → own_at result.now a ≡ word_at (rows 4000000000 self.now) a }
    {
        self.words.as_slice()
    }

    /// The sizes of the pieces: by them the words of all are cut into pieces. They are fewer than 268,435,455.
    pub fn sizes(&self) -> &[u32]
        ensures cuts { cut (concat self.now) result.now ≡ self.now }
        ensures whole { total result.now ≡ length (concat self.now) }
        ensures few { length result.now < 268435455 }
    {
        self.sizes.as_slice()
    }

    /// How many pieces there are.
    pub fn count(&self) -> u32
        ensures { result ≡ length self.now }
    {
        self.sizes.as_slice().len() as u32
    }

    /// Drops the pieces behind the first `count`, and keeps the memory for others.
    pub fn cut(&mut self, count: u32)
        ensures { self.new ≡ take count self.old }
    {
        let behind = words_behind(self.sizes.as_slice(), count as usize);
        let words = self.words.as_slice().len() - behind;
        self.words.truncate(words);
        self.sizes.truncate(count as usize);
    }

    /// Puts a piece after the others, and answers its address. Where memory or addresses run out, the pieces stay as they were.
    pub fn put(&mut self, piece: &[u64]) -> Result<u32, NoMemory>
        ensures pieces { MatchResult result (λ _. self.new ≡ self.old ++ piece.now ∷ []) (λ _. self.new ≡ self.old) }
        ensures at { IfOk result (λ a. (a ≡ end_of 4000000000 self.old) × (a + length piece.now < 4294967296)) }
    {
        let count = self.words.as_slice().len();
        let size = piece.len();
        if size > MOST - count {
            return Err(NoMemory);
        }
        if self.sizes.as_slice().len() >= MOST_PIECES {
            return Err(NoMemory);
        }
        put_size(&mut self.sizes, size as u32)?;
        match put_words(&mut self.words, piece) {
            Ok(()) => Ok(OWN + count as u32),
            Err(none) => {
                self.sizes.pop();
                Err(none)
            }
        }
    }

    /// Writes a word into an own place, which is unbound. The address is that of the place's word.
    pub fn fill(&mut self, addr: u32, word: u64)
        requires above { 4000000000 < addr }
        requires place { StartsAt 4000000000 self.old (addr - 1) (0 ∷ 0 ∷ []) }
        requires formed { ArePieces self.old }
        ensures { IsFilled (addr - 1) word self.old self.new }
    {
        self.words[(addr - OWN) as usize] = word;
    }

    /// An own place, which is unbound, takes the word to which it is bound. The address is that of the place's word.
    fn settle_place(&mut self, addr: u32, word: u64)
        requires above { 4000000000 < addr }
        requires place { StartsAt 4000000000 self.old (addr - 1) (0 ∷ 0 ∷ []) }
        ensures { self.new ≡ settled ((addr, word) ∷ []) 4000000000 self.old }
    {
        self.words[(addr - OWN) as usize] = word;
    }

    /// Each own place that is bound takes its word. All of them are unbound so far, and each is bound once; bindings of other places
    /// change nothing.
    pub fn settle(&mut self, binds: &[(u32, u64)])
        requires places { (a x : ℕ) → word_at binds.now a ≡ Some x → 4000000000 ≤ a
            → (s : ℕ) × (a ≡ suc s) × StartsAt 4000000000 self.old s (0 ∷ 0 ∷ []) }
        requires once { AreOnce binds.now }
        ensures { self.new ≡ settled binds.now 4000000000 self.old }
    {
        for bind in binds {
            let (addr, word) = *bind;
            if addr >= OWN {
                self.settle_place(addr, word);
            }
        }
    }

    /// Puts so many places after the other pieces: each a name and a word, both 0 so far.
    pub fn put_places(&mut self, count: u8) -> Result<(), NoMemory>
        ensures { OnOk result (self.new ≡ self.old ++ places_for count) }
    {
        for i in 0..count {
            self.put(&[0, 0])?;
        }
        Ok(())
    }
}
