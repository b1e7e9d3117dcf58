//! What a turn needs of a store: words, the locks of pages, and the log.
ghost use Rattle.std.specs.Prelude.{◌≡◌, ◌⊎◌, ◌-◌, ◌*◌, ◌<◌, ◌≤◌, ◌/◌, ℕ, Bool, true, false, ◌||◌, ◌&&◌, not, nat_eq};
ghost use Rattle.std.specs.Prelude.{List, [], ◌∷◌, ◌++◌, Some};
ghost use Rattle.heap_words.specs.Cells.{decoded};
ghost use Rattle.heap_words.specs.declared.cell.Cell.TheVariants.{Top};
ghost use Rattle.word_commit.specs.declared.quota.Quota.{Quota};
ghost use Rattle.word_commit.specs.declared.taken.Taken.TheVariants.{Got, Busy};
ghost use Rattle.word_moves.specs.declared.word_move.WordMove.{WordMove};
ghost use Rattle.commit_engine.specs.Halls.{HallLaws, MayStamp, IsPaid, IsSpent, SameRest};

use heap_words::Words;
use word_commit::{Quota, Taken};
use word_moves::WordMove;

/// A store with the locks of its pages and with its log, as one worker sees it. A page has 1,024 words; an address is a number from 0.
pub trait Hall: Words {
    // How many pages there are.
    ghost page_count: { Self → ℕ };

    // The page is held.
    ghost holds: { Self → ℕ → Bool };

    // An entry waits to be published.
    ghost due: { Self → Bool };

    // What is left of the quota.
    ghost purse: { Self → Quota };

    // How many entries have room in the log.
    ghost spare: { Self → ℕ };

    // The pages at which takes looked until now, in order, each with whether it was free.
    ghost takes: { Self → List (ℕ × Bool) };

    // The word was primed at the address, and its page is held since.
    ghost primed: { Self → ℕ → ℕ → Type 0 };

    // There is no other worker.
    ghost alone: { Self → Type 0 };

    // The word stands at the address, and its page is held.
    ghost stands: { Self → ℕ → ℕ → Type 0 };

    // No entry lies between the two.
    ghost silent: { Self → Self → Type 0 };

    // No entry lies between the two, and a load there gave this word at this address.
    ghost found: { Self → Self → ℕ → ℕ → Type 0 };

    // Exactly this entry lies between the two, with this number.
    ghost added: { Self → Self → WordMove → ℕ → Type 0 };

    /// Takes a page that is not held.
    fn take(&mut self, page: u32) -> Taken
        requires sound { Self.sound self.old }
        requires there { page < page_count self.old }
        requires free { holds self.old page ≡ false }
        ensures sound { Self.sound self.new }
        ensures silent { silent self.old self.new }
        ensures got { result ≡ Got → (p : ℕ) → holds self.new p ≡ (nat_eq p page || holds self.old p) }
        ensures busy { result ≡ Busy → (p : ℕ) → holds self.new p ≡ holds self.old p }
        ensures alone { alone self.old → result ≡ Got }
        ensures looks { result ≡ Got → (takes self.new ≡ takes self.old ++ (page, true) ∷ []) ⊎ (takes self.new ≡ takes self.old) }
        ensures refused { result ≡ Busy → takes self.new ≡ takes self.old ++ (page, false) ∷ [] }
        ensures rest { SameRest page_count due purse spare self.old self.new };

    /// Writes a word of a held page, at or above its top.
    fn prime(&mut self, addr: u32, word: u64)
        requires sound { Self.sound self.old }
        requires held { holds self.old (addr / 1024) ≡ true }
        requires free { (x t : ℕ) × stands self.old (1024 * (addr / 1024)) x × (decoded x ≡ Some (Top t)) × (t ≤ addr) }
        requires idle { due self.old ≡ false }
        ensures sound { Self.sound self.new }
        ensures silent { silent self.old self.new }
        ensures holds { (p : ℕ) → holds self.new p ≡ holds self.old p }
        ensures stands { (a x : ℕ) → stands self.old a x → stands self.new a x }
        ensures primed { primed self.new addr word }
        ensures others { (a x : ℕ) → (a ≡ addr → ⊥) → primed self.old a x → primed self.new a x }
        ensures takes { takes self.new ≡ takes self.old }
        ensures rest { SameRest page_count due purse spare self.old self.new };

    /// Makes an entry, and answers its number.
    fn stamp(&mut self, entry: WordMove) -> u64
        requires sound { Self.sound self.old }
        requires room { 0 < spare self.old }
        requires idle { due self.old ≡ false }
        requires paid { IsPaid (purse self.old) entry }
        requires may { MayStamp (page_count self.old) (holds self.old) (stands self.old) (primed self.old) (Self.shown self.old) entry }
        ensures sound { Self.sound self.new }
        ensures added { added self.old self.new entry result }
        ensures holds { (p : ℕ) → holds self.new p ≡ holds self.old p }
        ensures due { due self.new ≡ true }
        ensures purse { IsSpent (purse self.old) entry (purse self.new) }
        ensures takes { takes self.new ≡ takes self.old }
        ensures rest { (page_count self.new ≡ page_count self.old) × (spare self.new ≡ spare self.old - 1) };

    /// Writes what the last entry writes.
    fn publish(&mut self)
        requires sound { Self.sound self.old }
        requires due { due self.old ≡ true }
        ensures sound { Self.sound self.new }
        ensures silent { silent self.old self.new }
        ensures holds { (p : ℕ) → holds self.new p ≡ holds self.old p }
        ensures due { due self.new ≡ false }
        ensures takes { takes self.new ≡ takes self.old }
        ensures rest { (page_count self.new ≡ page_count self.old) × (purse self.new ≡ purse self.old)
            × (spare self.new ≡ spare self.old) };

    /// Gives a held page back.
    fn give(&mut self, page: u32)
        requires sound { Self.sound self.old }
        requires held { holds self.old page ≡ true }
        requires idle { due self.old ≡ false }
        ensures sound { Self.sound self.new }
        ensures silent { silent self.old self.new }
        ensures holds { (p : ℕ) → holds self.new p ≡ (not (nat_eq p page) && holds self.old p) }
        ensures takes { takes self.new ≡ takes self.old }
        ensures rest { SameRest page_count due purse spare self.old self.new };

    /// What is left of the quota.
    fn quota(&self) -> Quota
        ensures { result ≡ purse self.now };

    /// How many pages there are.
    fn pages(&self) -> u32
        requires sound { Self.sound self.now }
        ensures { result ≡ page_count self.now };

    ghost hall_laws: { HallLaws Self.addresses Self.sound Self.knows Self.had Self.shown Self.later Self.gave Self.once page_count holds due
        purse spare takes alone stands primed silent found added };
}
