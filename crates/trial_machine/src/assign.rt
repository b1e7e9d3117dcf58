//! How a process that assigns is decided.
ghost use Rattle.std.specs.Prelude.{◌≤◌, ◌≡◌, ◌<◌, ℕ, List, [], length, OnOk, IfOk};
ghost use Rattle.fcp_model.specs.Terms.{number};
ghost use Rattle.fcp_model.specs.declared.goal.TheConstants.{ASSIGN_PROCEDURE};
ghost use Rattle.guard_tests.specs.declared.number.Evaluated.TheVariants as came;
ghost use Rattle.machine_code.specs.Instructions.{PutWord};
ghost use Rattle.safe_tries.specs.Stored.{IsStored};
ghost use Rattle.trial_machine.specs.Assigning.{ExpressionSays, WereOpen};
ghost use Rattle.trial_machine.specs.Deciding.{DecidesAll};
ghost use Rattle.trial_machine.specs.Goals.{Calls, HasStatus, HasArguments, IsIdle};
ghost use Rattle.trial_machine.specs.Machines.{StepsOn, KeepsMachine};
ghost use Rattle.trial_machine.specs.Stores.{Loads};

use crate::decide::Trial;
use crate::goal::load_word;
use crate::machine::Machine;
use fcp_model::NoMemory;
use guard_tests::Evaluated;
use heap_words::{Trail, Words};
use stored_expressions::{ExpressionLists, number_of};

/// What the expression of a process that assigns comes to, where nothing was bound or read. The places that it reads unbound go on
/// the trail.
pub(crate) fn evaluate<W: Words>(
    lists: &mut ExpressionLists,
    trail: &mut Trail,
    words: &mut W,
    process: u32,
) -> Result<Evaluated, NoMemory>
    requires stored { IsStored W.addresses W.sound W.had W.shown W.later trail.old.kept words.old }
    requires process { HasStatus W.had words.old process }
    requires counted { HasArguments trail.old.kept process 2 }
    requires free { trail.old.binds ≡ [] }
    requires unread { trail.old.reads.items ≡ [] }
    ensures between { W.later words.old words.new }
    ensures loaded { OnOk result (Loads W.addresses W.sound W.had W.shown W.later W.gave trail.old.kept words.old trail.new.kept
        words.new) }
    ensures says { IfOk result (λ d. ExpressionSays trail.new.kept process d trail.new.reads.items) }
    ensures opened { OnOk result (WereOpen trail.new.kept trail.new.reads.items) }
    ensures binds { trail.new.binds ≡ trail.old.binds }
{
    let word = load_word(trail, words, process + 5)?;
    let value = number_of(lists, trail, words, word)?;
    Ok(value)
}

impl Machine {
    /// A slot takes a number.
    fn put_integer(&mut self, slot: u32, value: i64) -> Result<(), NoMemory>
        requires { slot < length self.old.desk.slots.slots }
        ensures steps { OnOk result (StepsOn self.old self.new (PutWord slot (number value))) }
        ensures keeps { KeepsMachine self.old self.new }
        ensures kept { self.new.trail.kept ≡ self.old.trail.kept }
    {
        self.desk.put_integer(slot, value)?;
        Ok(())
    }

    /// Decides a process that assigns, by the number of its expression: the first argument is unified with it. The second slot takes the
    /// number.
    pub(crate) fn assign<W: Words>(
        &mut self,
        words: &mut W,
        process: u32,
        value: i64,
    ) -> Result<Trial, NoMemory>
        requires stored { IsStored W.addresses W.sound W.had W.shown W.later self.old.trail.kept words.old }
        requires process { HasStatus W.had words.old process }
        requires call { Calls self.old.trail.kept process ASSIGN_PROCEDURE 2 }
        requires says { (rs : List ℕ) × ExpressionSays self.old.trail.kept process (came.Value value) rs }
        requires idle { IsIdle self.old }
        requires none { self.old.desk.slots.args ≡ [] }
        requires two { 2 ≤ length self.old.desk.slots.slots }
        ensures between { W.later words.old words.new }
        ensures loaded { OnOk result (Loads W.addresses W.sound W.had W.shown W.later W.gave self.old.trail.kept words.old
            self.new.trail.kept words.new) }
        ensures decides { IfOk result (λ d. DecidesAll self.new process d) }
        ensures count { length self.new.desk.slots.slots ≡ length self.old.desk.slots.slots }
    {
        if !self.load_arguments(words, process, 1)? {
            return Ok(Trial::Fails);
        }
        self.begin_try(0, 4, 0)?;
        self.put_integer(1, value)?;
        let decided = self.unify_last(words)?;
        Ok(decided)
    }

    /// A process that assigns waits for the places that its expression read.
    pub(crate) fn wait<W: Words>(&mut self, words: &W, process: u32) -> Result<(), NoMemory>
        requires stored { IsStored W.addresses W.sound W.had W.shown W.later self.old.trail.kept words.now }
        requires call { Calls self.old.trail.kept process ASSIGN_PROCEDURE 2 }
        requires says { ExpressionSays self.old.trail.kept process came.Wait self.old.trail.reads.items }
        requires opened { WereOpen self.old.trail.kept self.old.trail.reads.items }
        requires waits { self.old.waits ≡ [] }
        requires none { self.old.desk.slots.args ≡ [] }
        ensures decides { OnOk result (DecidesAll self.new process Trial.Wait) }
        ensures kept { self.new.trail.kept ≡ self.old.trail.kept }
        ensures count { length self.new.desk.slots.slots ≡ length self.old.desk.slots.slots }
    {
        self.leave(words, false)?;
        self.trail.once();
        Ok(())
    }
}
