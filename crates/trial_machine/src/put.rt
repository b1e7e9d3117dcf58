//! The instructions that put a term into a slot.
ghost use Rattle.std.specs.Prelude.{◌≡◌, ◌+◌, ◌*◌, ◌<◌, ◌≤◌, length, suc, IfSome, OnOk};
ghost use Rattle.heap_words.specs.Cells.{decoded};
ghost use Rattle.machine_code.specs.Instructions.{PutVar, PutWord, PutCons, PutTuple};
ghost use Rattle.machine_code.specs.Reading.{constant, HasWord};
ghost use Rattle.trial_machine.specs.Machines.{StepsOn, KeepsMachine};

use crate::machine::Machine;
use fcp_model::{ArithOp, NoMemory};
use heap_words::{Cell, encode};
use machine_code::Code;

/// The word of the first variable's place is two words before this one, and twice its number behind.
const BEFORE_PLACES: u32 = 3_999_999_999;

impl Machine {
    /// The address of the place of the clause's variable of a number from 1: all places stand first among the pieces.
    pub(crate) fn place(&self, var: u8) -> Option<u32>
        ensures { IfSome result (λ a. (0 < var) × (var ≤ self.now.vars) × (a ≡ 3999999999 + 2 * var)) }
    {
        if var == 0 || var > self.vars {
            None
        } else {
            Some(BEFORE_PLACES + 2 * var as u32)
        }
    }

    /// A slot takes a reference to the place of a clause's variable, a read-only one where `ro` says so. No code that was compiled
    /// names another clause's variable; for one the answer is `NoMemory`.
    pub(crate) fn put_variable(&mut self, slot: u32, var: u8, ro: bool) -> Result<(), NoMemory>
        requires { slot < length self.old.desk.slots.slots }
        ensures steps { OnOk result (StepsOn self.old self.new (PutVar slot var ro)) }
        ensures keeps { KeepsMachine self.old self.new }
        ensures kept { self.new.trail.kept ≡ self.old.trail.kept }
    {
        let Some(at) = self.place(var) else {
            return Err(NoMemory);
        };
        let cell = if ro { Cell::RoRef(at) } else { Cell::Ref(at) };
        self.desk.put_word(slot, encode(cell));
        Ok(())
    }

    /// A slot takes the constant that a word of the code says.
    pub(crate) fn put_constant(&mut self, slot: u32, word: u64, code: &Code) -> Result<(), NoMemory>
        requires { slot < length self.old.desk.slots.slots }
        ensures steps { OnOk result (StepsOn self.old self.new (PutWord slot (constant code.now.smalls (decoded word)))) }
        ensures keeps { KeepsMachine self.old self.new }
        ensures kept { self.new.trail.kept ≡ self.old.trail.kept }
    {
        self.desk.put_constant(slot, word, code)?;
        Ok(())
    }

    /// A slot takes a new pair of two slots' terms.
    pub(crate) fn put_pair(&mut self, slot: u32, left: u32, right: u32) -> Result<(), NoMemory>
        requires { slot < length self.old.desk.slots.slots }
        ensures steps { OnOk result (StepsOn self.old self.new (PutCons slot left right)) }
        ensures keeps { KeepsMachine self.old self.new }
        ensures kept { self.new.trail.kept ≡ self.old.trail.kept }
    {
        self.desk.put_pair(slot, left, right)?;
        Ok(())
    }

    /// A slot takes a new tuple of so many slots' terms from `first` on, or with an operator the operation on the two there.
    pub(crate) fn put_tuple(
        &mut self,
        slot: u32,
        first: u32,
        parts: u8,
        op: Option<ArithOp>,
    ) -> Result<(), NoMemory>
        requires slot { slot < length self.old.desk.slots.slots }
        requires range { first + parts < 4294967296 }
        requires word { HasWord parts op }
        ensures steps { OnOk result (StepsOn self.old self.new (PutTuple slot first parts op)) }
        ensures keeps { KeepsMachine self.old self.new }
        ensures kept { self.new.trail.kept ≡ self.old.trail.kept }
    {
        match op {
            None => self.desk.put_tuple(slot, first, parts as u32)?,
            Some(operator) => self.desk.put_operation(slot, first, first + 1, operator)?,
        }
        Ok(())
    }
}
