//! The begin of a try, first occurrences, and children.
ghost use Rattle.std.specs.Prelude.{◌≡◌, ◌+◌, ◌<◌, ◌≤◌, Some, ℕ, suc, length, slice_get, OnOk};
ghost use Rattle.machine_code.specs.Instructions.{Try, GetFirst, Spawn};
ghost use Rattle.trial_machine.specs.Machines.{Frame, IsOnWay, IsResting, StepsOn, Meets, KeepsMachine};

use crate::machine::Machine;
use fcp_model::NoMemory;

impl Machine {
    /// The try of a clause of so many variables begins. A try that is left goes on at `next`.
    pub(crate) fn begin_try(&mut self, clause: u32, next: u32, vars: u8) -> Result<(), NoMemory>
        ensures begins { OnOk result ((f : Frame) (at : ℕ) → IsResting f at self.old → slice_get f.ops at ≡ Some (Try clause next)
            → f.vars clause ≡ vars → IsOnWay f (suc at) self.new) }
        ensures next { OnOk result (self.new.desk.next ≡ next) }
        ensures args { self.new.desk.slots.args ≡ self.old.desk.slots.args }
        ensures count { length self.new.desk.slots.slots ≡ length self.old.desk.slots.slots }
        ensures kept { self.new.trail.kept ≡ self.old.trail.kept }
    {
        self.desk.begin(clause, next, vars)?;
        self.vars = vars;
        self.base = vars as u32;
        Ok(())
    }

    /// A variable takes a slot's term at its first occurrence: its place, which is unbound, gets the term's word.
    pub(crate) fn get_first(&mut self, slot: u32, var: u8) -> Result<(), NoMemory>
        requires { Meets self.old (GetFirst slot var) }
        ensures steps { OnOk result (StepsOn self.old self.new (GetFirst slot var)) }
        ensures keeps { KeepsMachine self.old self.new }
        ensures kept { self.new.trail.kept ≡ self.old.trail.kept }
    {
        let Some(at) = self.place(var) else {
            return Err(NoMemory);
        };
        self.desk.get_first(slot, at);
        self.base = self.desk.pieces.count();
        Ok(())
    }

    /// A new child calls a procedure with the contents of so many slots from `first` on; for a reference to a place that took a word in
    /// this try it takes that word.
    pub(crate) fn spawn(&mut self, procedure: u32, first: u32, parts: u8) -> Result<(), NoMemory>
        requires { first + parts < 4294967296 }
        ensures steps { OnOk result (StepsOn self.old self.new (Spawn procedure first parts)) }
        ensures keeps { KeepsMachine self.old self.new }
        ensures kept { self.new.trail.kept ≡ self.old.trail.kept }
    {
        self.desk
            .put_child(&self.trail, procedure, first, parts as u32)?;
        self.base = self.desk.pieces.count();
        Ok(())
    }
}
