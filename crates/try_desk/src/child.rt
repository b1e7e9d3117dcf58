//! The instruction that puts a child: the piece of a process that is ready. For an argument that refers to a place that took a word in
//! this try, the child takes that word.
ghost use Rattle.std.specs.Prelude.{suc, ◌+◌, ◌<◌, [], ◌∷◌, OnOk};
ghost use Rattle.heap_words.specs.Cells.{encoded};
ghost use Rattle.heap_words.specs.Trails.{WordList};
ghost use Rattle.fcp_model.specs.declared.goal.TheConstants.{UNIFY_PROCEDURE, ASSIGN_PROCEDURE};
ghost use Rattle.trial_laws.specs.AtHand.{term_word};
ghost use Rattle.trial_laws.specs.NewPieces.{true_piece, process_piece, passed, passed_words, child_piece};
ghost use Rattle.try_desk.specs.Desks.{Adds};
ghost use Rattle.try_desk.specs.Keeping.{KeepsDesk};

use crate::desk::Desk;
use crate::pieces::put_words;
use fcp_model::{ASSIGN_PROCEDURE, NoMemory, TRUE_PROCEDURE, UNIFY_PROCEDURE};
use heap_words::{Cell, Trail, encode};

/// The word of the status Ready.
pub(crate) const READY: u64 = 9;

impl Desk {
    /// A new child calls a procedure with the contents of so many slots. One of the built-in processes with arguments takes two.
    pub fn put_child(
        &mut self,
        trail: &Trail,
        procedure: u32,
        first: u32,
        count: u32,
    ) -> Result<(), NoMemory>
        requires { first + count < 4294967296 }
        ensures adds { OnOk result (Adds trail.now.binds self.old self.new (λ r. child_piece r procedure first count)) }
        ensures keeps { KeepsDesk self.old self.new }
    {
        if procedure == TRUE_PROCEDURE {
            self.put_true()
        } else if procedure == UNIFY_PROCEDURE {
            if count >= 2 {
                self.put_unification(trail, first)
            } else {
                self.put_true()
            }
        } else if procedure == ASSIGN_PROCEDURE {
            if count >= 2 {
                self.put_assignment(trail, first)
            } else {
                self.put_true()
            }
        } else {
            self.put_call(trail, procedure, first, count)
        }
    }

    /// The process `true`.
    fn put_true(&mut self) -> Result<(), NoMemory>
        ensures adds { (binds : WordList) → OnOk result (Adds binds self.old self.new (λ _. true_piece)) }
        ensures keeps { KeepsDesk self.old self.new }
    {
        let piece = [
            READY,
            0,
            encode(Cell::Raw(TRUE_PROCEDURE)),
            encode(Cell::Raw(0)),
        ];
        self.pieces.put(&piece)?;
        Ok(())
    }

    /// The process that unifies two slots' terms.
    fn put_unification(&mut self, trail: &Trail, first: u32) -> Result<(), NoMemory>
        requires { first + 1 < 4294967296 }
        ensures adds { OnOk result (Adds trail.now.binds self.old self.new
            (λ r. process_piece UNIFY_PROCEDURE (passed r (term_word r first) ∷ passed r (term_word r (suc first)) ∷ []))) }
        ensures keeps { KeepsDesk self.old self.new }
    {
        let name = encode(Cell::Raw(UNIFY_PROCEDURE));
        let count = encode(Cell::Raw(2));
        let piece = [
            READY,
            0,
            name,
            count,
            self.pieces.passed(trail, self.slots.term(first)),
            self.pieces.passed(trail, self.slots.term(first + 1)),
        ];
        self.pieces.put(&piece)?;
        Ok(())
    }

    /// The process that assigns a slot's content, which may be an operation, to a slot's term.
    fn put_assignment(&mut self, trail: &Trail, first: u32) -> Result<(), NoMemory>
        requires { first + 1 < 4294967296 }
        ensures adds { OnOk result (Adds trail.now.binds self.old self.new
            (λ r. process_piece ASSIGN_PROCEDURE (passed r (term_word r first) ∷ passed r (r.slots (suc first)) ∷ []))) }
        ensures keeps { KeepsDesk self.old self.new }
    {
        let name = encode(Cell::Raw(ASSIGN_PROCEDURE));
        let count = encode(Cell::Raw(2));
        let piece = [
            READY,
            0,
            name,
            count,
            self.pieces.passed(trail, self.slots.term(first)),
            self.pieces.passed(trail, self.slots.content(first + 1)),
        ];
        self.pieces.put(&piece)?;
        Ok(())
    }

    /// A process that calls a procedure of the program with so many slots' terms.
    fn put_call(
        &mut self,
        trail: &Trail,
        procedure: u32,
        first: u32,
        count: u32,
    ) -> Result<(), NoMemory>
        requires { first + count < 4294967296 }
        ensures adds { OnOk result
            (Adds trail.now.binds self.old self.new (λ r. process_piece procedure (passed_words r first count))) }
        ensures keeps { KeepsDesk self.old self.new }
    {
        self.line.clear();
        let head = [
            READY,
            0,
            encode(Cell::Raw(procedure)),
            encode(Cell::Raw(count)),
        ];
        put_words(&mut self.line, &head)?;
        self.pieces
            .pass(trail, &self.slots, &mut self.line, first, count)?;
        self.pieces.put(self.line.as_slice())?;
        Ok(())
    }
}
