//! The instructions that open a value.
ghost use Rattle.std.specs.Prelude.{◌≡◌, ◌+◌, ◌<◌, ◌≤◌, length, OnOk, IfOk};
ghost use Rattle.machine_code.specs.Instructions.{GetCons, GetTuple};
ghost use Rattle.safe_tries.specs.Stored.{IsStored};
ghost use Rattle.trial_machine.specs.Machines.{Meets, Opens, KeepsMachine};
ghost use Rattle.trial_machine.specs.Stores.{Loads};

use crate::machine::{Machine, Opened};
use beside_words::Beside;
use fcp_model::NoMemory;
use heap_words::Words;
use stored_tries::{after_beside, stands_beside};
use try_desk::is_term;

impl Machine {
    /// A slot's value, if it is a pair, gives its two parts to slots.
    pub(crate) fn open_pair<W: Words>(
        &mut self,
        words: &mut W,
        slot: u32,
        left: u32,
        right: u32,
        put: u32,
    ) -> Result<Opened, NoMemory>
        requires stored { IsStored W.addresses W.sound W.had W.shown W.later self.old.trail.kept words.old }
        requires meets { Meets self.old (GetCons slot left right put) }
        requires left { left < length self.old.desk.slots.slots }
        requires right { right < length self.old.desk.slots.slots }
        ensures between { W.later words.old words.new }
        ensures loaded { OnOk result (Loads W.addresses W.sound W.had W.shown W.later W.gave self.old.trail.kept words.old
            self.new.trail.kept words.new) }
        ensures opens { IfOk result (Opens self.old self.new (GetCons slot left right put) put) }
        ensures keeps { KeepsMachine self.old self.new }
    {
        if left == right {
            return Err(NoMemory);
        }
        stands_beside(words);
        self.trail.once();
        let mut beside = Beside {
            words,
            own: self.desk.pieces.words(),
        };
        let is_pair = self
            .desk
            .slots
            .open_pair(&mut self.trail, &mut beside, slot, left, right)?;
        after_beside(words);
        self.base = self.desk.pieces.count();
        if !is_pair {
            return Ok(Opened::Other);
        }
        if is_term(self.desk.slots.content(left)) && is_term(self.desk.slots.content(right)) {
            Ok(Opened::Taken)
        } else {
            Ok(Opened::Nowhere)
        }
    }
}
