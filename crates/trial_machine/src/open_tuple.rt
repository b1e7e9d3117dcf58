//! The instruction that opens a tuple.
ghost use Rattle.std.specs.Prelude.{◌≡◌, ◌↔◌, ◌+◌, ◌<◌, ◌≤◌, true, length, OnOk, IfOk};
ghost use Rattle.machine_code.specs.Instructions.{GetTuple};
ghost use Rattle.safe_tries.specs.Loads.{AreTermWords};
ghost use Rattle.safe_tries.specs.Stored.{IsStored};
ghost use Rattle.try_desk.specs.Held.{held, held_terms};
ghost use Rattle.trial_machine.specs.Machines.{Meets, Opens, KeepsMachine};
ghost use Rattle.trial_machine.specs.Stores.{Loads};

use crate::machine::{Machine, Opened};
use beside_words::Beside;
use fcp_model::NoMemory;
use heap_words::Words;
use stored_tries::{after_beside, stands_beside};
use try_desk::{Slots, is_term};

/// Whether the words of so many slots from `first` on are those of terms.
fn hold_terms(slots: &Slots, first: u32, count: u32) -> bool
    requires { first + count < 4294967296 }
    ensures { (result ≡ true) ↔ AreTermWords (held_terms (held slots.now) first count) }
{
    for i in 0..count {
        if !is_term(slots.term(first + i)) {
            return false;
        }
    }
    true
}

impl Machine {
    /// A slot's value, if it is a tuple of so many parts, gives them to the slots from `first` on. Where memory runs out, the first
    /// of these slots may hold a part each.
    pub(crate) fn open_tuple<W: Words>(
        &mut self,
        words: &mut W,
        slot: u32,
        first: u32,
        parts: u8,
        put: u32,
    ) -> Result<Opened, NoMemory>
        requires stored { IsStored W.addresses W.sound W.had W.shown W.later self.old.trail.kept words.old }
        requires meets { Meets self.old (GetTuple slot first parts put) }
        requires range { first + parts < 4294967296 }
        requires slots { first + parts ≤ length self.old.desk.slots.slots }
        ensures between { W.later words.old words.new }
        ensures loaded { OnOk result (Loads W.addresses W.sound W.had W.shown W.later W.gave self.old.trail.kept words.old
            self.new.trail.kept words.new) }
        ensures opens { IfOk result (Opens self.old self.new (GetTuple slot first parts put) put) }
        ensures keeps { KeepsMachine self.old self.new }
    {
        // No code that was compiled names so many parts.
        if parts >= 66 {
            return Err(NoMemory);
        }
        stands_beside(words);
        self.trail.once();
        let mut beside = Beside {
            words,
            own: self.desk.pieces.words(),
        };
        let is_tuple = self
            .desk
            .slots
            .open_tuple(&mut self.trail, &mut beside, slot, first, parts as u32)?;
        after_beside(words);
        self.base = self.desk.pieces.count();
        if !is_tuple {
            return Ok(Opened::Other);
        }
        if hold_terms(&self.desk.slots, first, parts as u32) {
            Ok(Opened::Taken)
        } else {
            Ok(Opened::Nowhere)
        }
    }
}
