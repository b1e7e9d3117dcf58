//! The instruction that unifies two slots.
ghost use Rattle.std.specs.Prelude.{◌≡◌, OnOk, IfOk};
ghost use Rattle.machine_code.specs.Instructions.{Unify};
ghost use Rattle.safe_tries.specs.Stored.{IsStored};
ghost use Rattle.trial_machine.specs.Machines.{Meets, Turns, KeepsMachine};
ghost use Rattle.trial_machine.specs.Stores.{Loads};

use crate::machine::{Machine, Turn};
use beside_words::Beside;
use fcp_model::NoMemory;
use heap_words::Words;
use ro_unify::Unified;
use stored_tries::{after_beside, stands_beside};

impl Machine {
    /// Unifies two slots' terms. Where they clash or wait, the try is left.
    pub(crate) fn unify<W: Words>(
        &mut self,
        words: &mut W,
        left: u32,
        right: u32,
    ) -> Result<Turn, NoMemory>
        requires stored { IsStored W.addresses W.sound W.had W.shown W.later self.old.trail.kept words.old }
        requires meets { Meets self.old (Unify left right) }
        ensures between { W.later words.old words.new }
        ensures loaded { OnOk result (Loads W.addresses W.sound W.had W.shown W.later W.gave self.old.trail.kept words.old
            self.new.trail.kept words.new) }
        ensures turns { IfOk result (Turns self.old self.new (Unify left right)) }
        ensures keeps { KeepsMachine self.old self.new }
    {
        stands_beside(words);
        self.trail.once();
        let mut beside = Beside {
            words,
            own: self.desk.pieces.words(),
        };
        let end = self
            .desk
            .slots
            .unify(&mut self.work, &mut self.trail, &mut beside, left, right)?;
        after_beside(words);
        match end {
            Unified::Done => {
                self.base = self.desk.pieces.count();
                Ok(Turn::On)
            }
            Unified::Clash => {
                self.leave(words, self.desk.behind)?;
                Ok(Turn::Left)
            }
            Unified::Wait => {
                self.leave(words, false)?;
                Ok(Turn::Left)
            }
        }
    }
}
