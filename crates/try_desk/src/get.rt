//! The instructions that take a term apart, as far as they are written.
ghost use Rattle.std.specs.Prelude.{◌≡◌, ◌<◌, ◌-◌, ◌∷◌, [], ℕ, List};
ghost use Rattle.heap_words.specs.Trails.{WordList};
ghost use Rattle.word_states.specs.Pieces.{StartsAt};
ghost use Rattle.trial_laws.specs.AtHand.{ArePieces, term_word};
ghost use Rattle.trial_laws.specs.Laws.{IsFilled};
ghost use Rattle.try_desk.specs.Desks.{hand, Becomes};
ghost use Rattle.try_desk.specs.Keeping.{KeepsDesk};

use crate::desk::Desk;

impl Desk {
    /// A variable takes a slot's term at its first occurrence: its own place, whose word has this address, gets the term's word.
    pub fn get_first(&mut self, slot: u32, addr: u32)
        requires above { 4000000000 < addr }
        requires unbound { StartsAt 4000000000 self.old.pieces (addr - 1) (0 ∷ 0 ∷ []) }
        requires formed { ArePieces self.old.pieces }
        ensures filled { (binds : WordList) (reads waits : List ℕ)
            → IsFilled (addr - 1) (term_word (hand self.old binds reads waits) slot) self.old.pieces self.new.pieces }
        ensures becomes { Becomes self.old self.new (λ r. record r { pieces = self.new.pieces }) }
        ensures keeps { KeepsDesk self.old self.new }
    {
        let word = self.slots.term(slot);
        self.pieces.fill(addr, word);
    }
}
