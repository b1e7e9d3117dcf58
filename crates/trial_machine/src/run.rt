//! The loops over the instructions of a try, and over the tries of a trial.
ghost use Rattle.std.specs.Prelude.{◌≡◌, ◌≤◌, ◌<◌, length, OnOk, IfOk};
ghost use Rattle.safe_tries.specs.Stored.{IsStored};
ghost use Rattle.trial_machine.specs.Machines.{KeepsMachine};
ghost use Rattle.trial_machine.specs.Running.{IsAt, EndsTry, IsReady, EndsTrial};
ghost use Rattle.trial_machine.specs.Stores.{Loads};

use crate::machine::Machine;
use crate::step::Step;
use fcp_model::NoMemory;
use heap_words::Words;
use machine_code::{Code, Instr};

/// How a try or a trial ends: it is left, a clause commits, or no store stands so.
pub(crate) enum Outcome {
    Leaves,
    Commits,
    Nowhere,
}

impl Machine {
    /// Follows a try from a position on to its end. Where no instruction stands in a try, which no compiled code has, the answer is
    /// `NoMemory`.
    fn follow<W: Words>(
        &mut self,
        code: &Code,
        words: &mut W,
        from: u32,
    ) -> Result<Outcome, NoMemory>
        requires stored { IsStored W.addresses W.sound W.had W.shown W.later self.old.trail.kept words.old }
        requires on_way { IsAt code.now from self.old }
        requires slots { code.now.slots ≤ length self.old.desk.slots.slots }
        ensures between { W.later words.old words.new }
        ensures loaded { OnOk result (Loads W.addresses W.sound W.had W.shown W.later W.gave self.old.trail.kept words.old
            self.new.trail.kept words.new) }
        ensures ends { IfOk result (EndsTry code.now self.old self.new from) }
        ensures keeps { KeepsMachine self.old self.new }
    {
        let mut at = from;
        loop {
            let Some(instr) = code.instr(at) else {
                return Err(NoMemory);
            };
            match self.step(code, words, at, instr)? {
                Step::To(next) => at = next,
                Step::Left => return Ok(Outcome::Leaves),
                Step::Commits => return Ok(Outcome::Commits),
                Step::Nowhere => return Ok(Outcome::Nowhere),
            }
        }
    }

    /// Follows a procedure's code from its first instruction on, to the end of the trial. Of code in which a try does not go on at
    /// another try or at no instruction, which no compiled code is, the answer is `NoMemory`.
    pub(crate) fn run<W: Words>(
        &mut self,
        code: &Code,
        procedure: u32,
        words: &mut W,
        first: u32,
    ) -> Result<Outcome, NoMemory>
        requires stored { IsStored W.addresses W.sound W.had W.shown W.later self.old.trail.kept words.old }
        requires ready { IsReady code.now procedure first self.old }
        requires slots { code.now.slots ≤ length self.old.desk.slots.slots }
        ensures between { W.later words.old words.new }
        ensures loaded { OnOk result (Loads W.addresses W.sound W.had W.shown W.later W.gave self.old.trail.kept words.old
            self.new.trail.kept words.new) }
        ensures ends { IfOk result (EndsTrial code.now procedure self.old self.new first) }
        ensures args { self.new.desk.slots.args ≡ self.old.desk.slots.args }
        ensures count { length self.new.desk.slots.slots ≡ length self.old.desk.slots.slots }
    {
        code.sound();
        let mut at = first;
        loop {
            match code.instr(at) {
                Some(Instr::Try { clause, next }) => {
                    let Some(inner) = at.checked_add(1) else {
                        return Err(NoMemory);
                    };
                    let vars = code.vars(procedure, *clause).unwrap_or(0);
                    self.begin_try(*clause, *next, vars)?;
                    match self.follow(code, words, inner)? {
                        Outcome::Leaves => at = *next,
                        Outcome::Commits => return Ok(Outcome::Commits),
                        Outcome::Nowhere => return Ok(Outcome::Nowhere),
                    }
                }
                Some(Instr::Jump { to }) => at = *to,
                Some(_) => return Err(NoMemory),
                None => return Ok(Outcome::Leaves),
            }
        }
    }
}
