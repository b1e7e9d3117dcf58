//! The plan of a move.
ghost use Rattle.std.specs.Prelude.{◌≡◌, ◌*◌, ◌<◌, ◌≤◌, ℕ, [], IfOk, OnOk};
ghost use Rattle.word_states.specs.Trials.{AreReads};
ghost use Rattle.safe_tries.specs.Stored.{IsStored};
ghost use Rattle.trial_machine.specs.Deciding.{Decides};
ghost use Rattle.trial_machine.specs.Goals.{HasStatus};
ghost use Rattle.trial_machine.specs.Stores.{Loads};
ghost use Rattle.trial_machine.specs.declared.decide.Trial.TheVariants.{Fails};
ghost use Rattle.word_moves.specs.Planned.{ReadsProcess};
ghost use Rattle.move_plans.specs.Movers.{MoverRead};
ghost use Rattle.move_plans.specs.Plans.{PlanSays};

use crate::mover::{Mover, load_mover};
use crate::planner::{Planned, Planner};
use crate::woken::Wakers;
use fcp_model::{Entry, NoMemory};
use heap_words::Words;
use machine_code::Code;
use std::alloc::Global;
use trial_machine::{Machine, Trial};

impl Planner {
    /// A planner with nothing planned.
    pub fn make(alloc: Global) -> Result<Planner, NoMemory>
        ensures { IfOk result (λ pl. pl.open ≡ 0) }
    {
        Ok(Planner {
            machine: Machine::make(alloc)?,
            entry: Entry::Snapshot,
            cells: 0,
            writes: Vec::new(alloc),
            children: Vec::new(alloc),
            woken: Vec::new(alloc),
            bound: Vec::new(alloc),
            waits: Vec::new(alloc),
            open: 0,
            wakers: Wakers::make(alloc),
            rooms: Vec::new(alloc),
            table: Vec::new(alloc),
            lists: Vec::new(alloc),
            sizes: Vec::new(alloc),
        })
    }

    /// Decides a process, and reads its status and its name. Nothing is bound any more.
    fn begin<W: Words>(
        &mut self,
        code: &Code,
        words: &mut W,
        process: u32,
    ) -> Result<(Trial, Mover), NoMemory>
        requires stored { IsStored W.addresses W.sound W.had W.shown W.later [] words.old }
        requires process { HasStatus W.had words.old process }
        ensures between { W.later words.old words.new }
        ensures loaded { OnOk result (Loads W.addresses W.sound W.had W.shown W.later W.gave [] words.old self.new.machine.trail.kept
            words.new) }
        ensures free { OnOk result (self.new.machine.trail.binds ≡ []) }
        ensures reads { OnOk result (AreReads self.new.machine.trail.kept) }
        ensures decided { IfOk result (λ r. Decides code.now self.new.machine process r.0) }
        ensures mover { IfOk result (λ r. MoverRead self.new.machine.trail.kept process r.1) }
    {
        let trial = self.machine.trial(code, process, words)?;
        self.machine.trail.undo();
        let mover = load_mover(&mut self.machine.trail, words, process)?;
        self.machine.trail.once();
        Ok((trial, mover))
    }

    /// Plans the fail of a process that fails by what was read. It has no cells.
    fn plan_fail(&mut self, code: &Code, process: u32, name: u64, left: u32) -> Planned
        requires mover { ReadsProcess self.old.machine.trail.kept process name }
        requires small_name { name < 36028797018963968 }
        requires reads { AreReads self.old.machine.trail.kept }
        requires decided { Decides code.now self.old.machine process Fails }
        ensures kept { self.new.machine.trail.kept ≡ self.old.machine.trail.kept }
        ensures says { PlanSays code.now self.new process left result }
    {
        self.put_fail(process, name);
        word_moves::fits();
        word_moves::safe();
        Planned::Fails
    }

    /// Plans the move of a Ready process by what is decided for it.
    fn plan_trial<W: Words>(
        &mut self,
        code: &Code,
        words: &mut W,
        process: u32,
        name: u64,
        trial: Trial,
        pages: u32,
        left: u32,
    ) -> Result<Planned, NoMemory>
        requires stored { IsStored W.addresses W.sound W.had W.shown W.later self.old.machine.trail.kept words.old }
        requires free { self.old.machine.trail.binds ≡ [] }
        requires reads { AreReads self.old.machine.trail.kept }
        requires mover { ReadsProcess self.old.machine.trail.kept process name }
        requires small_name { name < 36028797018963968 }
        requires decided { Decides code.now self.old.machine process trial }
        requires small { pages ≤ 3906250 }
        requires known { (p : ℕ) → p < pages → W.knows words.old (1024 * p) }
        ensures between { W.later words.old words.new }
        ensures loaded { OnOk result (Loads W.addresses W.sound W.had W.shown W.later W.gave self.old.machine.trail.kept words.old
            self.new.machine.trail.kept words.new) }
        ensures says { IfOk result (λ d. PlanSays code.now self.new process left d) }
    {
        match trial {
            Trial::Commit => self.plan_commit(code, words, process, name, pages, left),
            Trial::Wait => self.plan_hang(code, words, process, name, pages, left),
            Trial::Fails => Ok(self.plan_fail(code, process, name, left)),
        }
    }

    /// Plans the move of the process at an address, by words that it loads: what the trial decides, whom it wakes, and where its words go
    /// among so many pages, by first fit from the page `open` on, and where that fails from the first one on. A move of more cells than are
    /// left is `Large`, and no room is looked for. After `NoMemory` the planner may plan other moves.
    pub fn plan<W: Words>(
        &mut self,
        code: &Code,
        words: &mut W,
        process: u32,
        pages: u32,
        left: u32,
    ) -> Result<Planned, NoMemory>
        requires stored { IsStored W.addresses W.sound W.had W.shown W.later [] words.old }
        requires process { HasStatus W.had words.old process }
        requires small { pages ≤ 3906250 }
        requires known { (p : ℕ) → p < pages → W.knows words.old (1024 * p) }
        ensures between { W.later words.old words.new }
        ensures loaded { OnOk result (Loads W.addresses W.sound W.had W.shown W.later W.gave [] words.old self.new.machine.trail.kept
            words.new) }
        ensures says { IfOk result (λ d. PlanSays code.now self.new process left d) }
    {
        let (trial, mover) = self.begin(code, words, process)?;
        match mover {
            Mover::Named(name) => {
                let planned = self.plan_trial(code, words, process, name, trial, pages, left)?;
                Ok(planned)
            }
            Mover::Other(stand) => Ok(Planned::Gone(stand)),
            // No store has such words, so that nothing has to fit.
            Mover::Nowhere => Ok(Planned::Full),
        }
    }
}
