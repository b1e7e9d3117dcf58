//! The making of a desk, and the begin, the rest and the end of a try.
ghost use Rattle.std.specs.Prelude.{◌≡◌, [], length, IfOk, OnOk};
ghost use Rattle.trial_laws.specs.Laws.{empty};
ghost use Rattle.try_desk.specs.Desks.{hand, Becomes, Begins, rested, put_away};
ghost use Rattle.try_desk.specs.Keeping.{KeepsArguments, KeepsDesk};

use crate::desk::Desk;
use crate::pieces::Pieces;
use crate::slots::Slots;
use fcp_model::NoMemory;
use std::alloc::Global;

impl Desk {
    /// A desk with so many slots, and nothing at hand: no arguments, no pieces, and no try that did not fail.
    pub fn make(alloc: Global, slots: u32) -> Result<Desk, NoMemory>
        ensures count { IfOk result (λ d. length d.slots.slots ≡ slots) }
        ensures args { IfOk result (λ d. d.slots.args ≡ []) }
        ensures empty { IfOk result (λ d. hand d [] [] [] ≡ empty) }
    {
        Ok(Desk {
            slots: Slots::make(alloc, slots)?,
            pieces: Pieces::make(alloc),
            clause: 0,
            next: 0,
            behind: true,
            line: Vec::new(alloc),
        })
    }

    /// The try of a clause begins: each of its variables has its place, and the slots hold the arguments. After `NoMemory` the
    /// pieces are no clause's places, and `begin` may be called again.
    pub fn begin(&mut self, clause: u32, next: u32, vars: u8) -> Result<(), NoMemory>
        ensures begun { OnOk result (Begins self.old self.new clause next vars) }
        ensures keeps { KeepsArguments self.old.slots self.new.slots }
        ensures behind { self.new.behind ≡ self.old.behind }
    {
        self.pieces.clear();
        self.pieces.put_places(vars)?;
        self.slots.renew();
        self.clause = clause;
        self.next = next;
        Ok(())
    }

    /// Goes back to the first `base` pieces within a try: the slots hold the arguments again.
    pub fn rest(&mut self, base: u32)
        ensures becomes { Becomes self.old self.new (rested self.old.slots.args base) }
        ensures keeps { KeepsDesk self.old self.new }
    {
        self.slots.renew();
        self.pieces.cut(base);
    }

    /// A try ends: the slots hold the arguments again, there are no pieces, and `behind` says whether all tries failed until now.
    pub fn leave(&mut self, behind: bool)
        ensures becomes { Becomes self.old self.new (put_away self.old.slots.args behind) }
        ensures keeps { KeepsArguments self.old.slots self.new.slots }
    {
        self.slots.renew();
        self.pieces.clear();
        self.behind = behind;
    }
}
