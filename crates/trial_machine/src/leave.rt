//! How a try is left.
ghost use Rattle.std.specs.Prelude.{◌≡◌, ◌+◌, ℕ, OnOk, IfOk};
ghost use Rattle.machine_code.specs.Instructions.{Otherwise};
ghost use Rattle.trial_laws.specs.Laws.{AreNoted};
ghost use Rattle.safe_tries.specs.Stored.{IsStored};
ghost use Rattle.trial_machine.specs.Machines.{HasLeft, LeftSafe, Meets, Turns, KeepsMachine};

use crate::machine::{Machine, Turn};
use crate::places::Places;
use fcp_model::NoMemory;
use heap_words::{OWN, Trail, Words};
use stored_tries::safe_start;

/// Notes the store's places among those that were read. Where memory runs out, the first of them may be noted.
fn note_reads(waits: &mut Places, trail: &Trail) -> Result<(), NoMemory>
    ensures { OnOk result (AreNoted waits.old trail.now.reads.items waits.new) }
{
    for place in trail.places_read() {
        if *place < OWN {
            waits.note(*place)?;
        }
    }
    Ok(())
}

impl Machine {
    /// A try is left: the store's places that it read are noted, and nothing else of it stays. `behind` says whether all tries until
    /// now failed.
    pub(crate) fn leave<W: Words>(&mut self, words: &W, behind: bool) -> Result<(), NoMemory>
        requires { IsStored W.addresses W.sound W.had W.shown W.later self.old.trail.kept words.now }
        ensures left { OnOk result (HasLeft self.old self.new behind) }
        ensures safe { OnOk result (LeftSafe self.old self.new) }
        ensures keeps { KeepsMachine self.old self.new }
        ensures kept { self.new.trail.kept ≡ self.old.trail.kept }
    {
        note_reads(&mut self.waits, &self.trail)?;
        self.trail.undo();
        self.trail.forget_reads();
        self.desk.leave(behind);
        self.waits.as_slice();
        safe_start(words);
        Ok(())
    }

    /// `otherwise` holds where all tries before failed; else the try is left.
    pub(crate) fn otherwise<W: Words>(&mut self, words: &W) -> Result<Turn, NoMemory>
        requires stored { IsStored W.addresses W.sound W.had W.shown W.later self.old.trail.kept words.now }
        requires meets { Meets self.old Otherwise }
        ensures turns { IfOk result (Turns self.old self.new Otherwise) }
        ensures keeps { KeepsMachine self.old self.new }
        ensures kept { self.new.trail.kept ≡ self.old.trail.kept }
    {
        if self.desk.behind {
            self.base = self.desk.pieces.count();
            return Ok(Turn::On);
        }
        self.leave(words, false)?;
        Ok(Turn::Left)
    }
}
