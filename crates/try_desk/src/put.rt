//! The instructions that put a word into a slot, some of them with a new piece.
ghost use Rattle.std.specs.Prelude.{◌≡◌, ◌<◌, ◌≤◌, ◌+◌, ◌*◌, ◌∷◌, [], suc, true, false, length, OnOk};
ghost use Rattle.heap_words.specs.Cells.{encoded};
ghost use Rattle.word_states.specs.Denoting.{operator_code};
ghost use Rattle.trial_laws.specs.AtHand.{term_word, end_of};
ghost use Rattle.trial_laws.specs.Laws.{holding};
ghost use Rattle.trial_laws.specs.NewPieces.{next_piece, with_piece, term_words};
ghost use Rattle.try_desk.specs.Desks.{Becomes};
ghost use Rattle.try_desk.specs.Keeping.{KeepsDesk};

use crate::desk::Desk;
use crate::slots::put_word;
use fcp_model::{ArithOp, NoMemory};
use heap_words::{Cell, encode};

/// The number of an operator's operands with the operator: 66 and more, so that it is no number of a tuple's parts.
fn operation_count(operator: ArithOp) -> u32
    ensures { result ≡ 66 + operator_code operator }
{
    match operator {
        ArithOp::Add => 66,
        ArithOp::Sub => 67,
        ArithOp::Mul => 68,
        ArithOp::Div => 69,
        ArithOp::Mod => 70,
    }
}

impl Desk {
    /// A slot takes a word: a constant's, or a reference to a place.
    pub fn put_word(&mut self, slot: u32, word: u64)
        requires { slot < length self.old.slots.slots }
        ensures becomes { Becomes self.old self.new (λ r. holding r slot word false) }
        ensures keeps { KeepsDesk self.old self.new }
    {
        self.slots.hold(slot, word, false);
    }

    /// A slot takes a new pair of two slots' terms.
    pub fn put_pair(&mut self, slot: u32, left: u32, right: u32) -> Result<(), NoMemory>
        requires { slot < length self.old.slots.slots }
        ensures becomes { OnOk result (Becomes self.old self.new (λ r. holding (with_piece r (term_word r left ∷ term_word r right ∷ []))
            slot (encoded (Cell.Cons (next_piece r))) false)) }
        ensures room { OnOk result (end_of 4000000000 self.old.pieces + 2 ≤ 4294967296) }
        ensures keeps { KeepsDesk self.old self.new }
    {
        let pair = [self.slots.term(left), self.slots.term(right)];
        let at = self.pieces.put(&pair)?;
        self.slots.hold(slot, encode(Cell::Cons(at)), false);
        Ok(())
    }

    /// A slot takes a new operation, whose operands are the contents of two slots.
    pub fn put_operation(
        &mut self,
        slot: u32,
        left: u32,
        right: u32,
        operator: ArithOp,
    ) -> Result<(), NoMemory>
        requires { slot < length self.old.slots.slots }
        ensures becomes { OnOk result (Becomes self.old self.new (λ r. holding
            (with_piece r (encoded (Cell.Raw (66 + operator_code operator)) ∷ r.slots left ∷ r.slots right ∷ []))
            slot (encoded (Cell.Tuple (next_piece r))) true)) }
        ensures room { OnOk result (end_of 4000000000 self.old.pieces + 3 ≤ 4294967296) }
        ensures keeps { KeepsDesk self.old self.new }
    {
        let count = encode(Cell::Raw(operation_count(operator)));
        let operation = [count, self.slots.content(left), self.slots.content(right)];
        let at = self.pieces.put(&operation)?;
        self.slots.hold(slot, encode(Cell::Tuple(at)), true);
        Ok(())
    }

    /// A slot takes a wide number: the word with its lower 56 bits becomes a piece.
    pub fn put_wide(&mut self, slot: u32, low: u64, high: u8) -> Result<(), NoMemory>
        requires { slot < length self.old.slots.slots }
        ensures becomes { OnOk result (Becomes self.old self.new
            (λ r. holding (with_piece r (low ∷ [])) slot (encoded (Cell.Wide (next_piece r) high)) false)) }
        ensures room { OnOk result (end_of 4000000000 self.old.pieces + 1 ≤ 4294967296) }
        ensures keeps { KeepsDesk self.old self.new }
    {
        let piece = [low];
        let at = self.pieces.put(&piece)?;
        self.slots.hold(slot, encode(Cell::Wide(at, high)), false);
        Ok(())
    }

    /// A slot takes a new tuple of so many slots' terms.
    pub fn put_tuple(&mut self, slot: u32, first: u32, parts: u32) -> Result<(), NoMemory>
        requires slot { slot < length self.old.slots.slots }
        requires range { first + parts < 4294967296 }
        ensures becomes { OnOk result (Becomes self.old self.new (λ r. holding
            (with_piece r (encoded (Cell.Raw parts) ∷ term_words r first parts)) slot (encoded (Cell.Tuple (next_piece r))) false)) }
        ensures room { OnOk result (end_of 4000000000 self.old.pieces + suc parts ≤ 4294967296) }
        ensures keeps { KeepsDesk self.old self.new }
    {
        self.line.clear();
        put_word(&mut self.line, encode(Cell::Raw(parts)))?;
        self.slots.terms(&mut self.line, first, parts)?;
        let at = self.pieces.put(self.line.as_slice())?;
        self.slots.hold(slot, encode(Cell::Tuple(at)), false);
        Ok(())
    }
}
