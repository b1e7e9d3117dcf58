//! Where a run stands, and one ruling of it.
ghost use Rattle.std.specs.Prelude.{◌≡◌, ◌+◌, ◌<◌, ◌≤◌, ◌||◌, true, false, suc, nat_eq, nat_le, [], ◌∷◌, length, IfOk, OnOk};
ghost use Rattle.fcp_model.specs.OneWorker.{is_due, is_over};
ghost use Rattle.fcp_model.specs.declared.run.Outcome.TheVariants.{Failed};
ghost use Rattle.commit_engine.specs.Turns.{IsCommit, IsHang};
ghost use Rattle.run_laws.specs.Running.{IsGoing, open_outcome_by};
ghost use Rattle.worker_crew.specs.declared.task.Task.{Task};
ghost use Rattle.worker_crew.specs.Tasks.{IsTask};
ghost use Rattle.worker_crew.specs.Reached.{mode_of, counts_of, entries_left, IsReached, HasRoom, HasEnded};
ghost use Rattle.worker_crew.specs.Moved.{HasMoved, HasFailed, HasPassed, RuleGives};

use crate::mode::{RunMode, mode_behind};
use crate::queues::push_all;
use crate::task::Task;
use commit_engine::{Hall, PlainHall, Spent, Turn, control, fail, turn};
use fcp_model::{Entry, NoMemory, Outcome};
use move_plans::Planner;
use std::alloc::Global;
use std::collections::VecDeque;

/// Where the run stands: the hall with the words of the state, with the log and with what is left of the limits, and the addresses of the
/// Ready processes in the order of the queue. `passed` processes went to the back of the queue since the last move, `asleep` ones wait,
/// and so many controls were `made`. The planner keeps its memory from one ruling to the next.
#[derive(Drop)]
pub(crate) struct Engine {
    pub hall: PlainHall,
    pub planner: Planner,
    pub queue: VecDeque<u32>,
    pub passed: usize,
    pub asleep: usize,
    pub made: u32,
    pub mode: RunMode,
}

/// What one ruling did.
#[derive(Clone, Copy, Debug, PartialEq, Eq)]
pub(crate) enum Ruled {
    /// The run ends, with this outcome.
    Ends(Outcome),
    /// The front of the queue went to the back: its entry has more cells than are left.
    Passes,
    /// An entry was made, and the run goes on.
    Makes,
}

impl Engine {
    /// Puts the children of a commit that the front made, and then the processes that it woke, at the back of the queue.
    fn note_commit(&mut self) -> Result<(), NoMemory>
        requires { length self.old.planner.woken.items ≤ self.old.asleep }
        ensures reached { OnOk result ((t : Task) → HasMoved t self.old → IsCommit self.old.planner.entry → IsReached t [] self.new) }
        ensures left { OnOk result ((t : Task) → entries_left t self.new ≡ entries_left t self.old) }
    {
        run_laws::leading_moves();
        run_laws::front_moves();
        push_all(&mut self.queue, self.planner.children.as_slice())?;
        push_all(&mut self.queue, self.planner.woken.as_slice())?;
        self.passed = 0;
        self.asleep -= self.planner.woken.len();
        Ok(())
    }

    /// Counts a hang that the front made.
    fn note_hang(&mut self)
        requires { self.old.asleep < 134217728 }
        ensures reached { (t : Task) → HasMoved t self.old → IsHang self.old.planner.entry → IsReached t [] self.new }
        ensures left { (t : Task) → entries_left t self.new ≡ entries_left t self.old }
    {
        run_laws::leading_moves();
        run_laws::front_moves();
        self.passed = 0;
        self.asleep += 1;
    }

    /// Makes the fail of the front, which ends the run.
    fn make_fail(&mut self, alloc: Global, address: u32)
        requires { (t : Task) × HasFailed t address self.old }
        ensures { (t : Task) → IsTask t → HasFailed t address self.old → HasEnded t self.new Failed }
    {
        run_laws::front_moves();
        run_laws::ends();
        let Entry::Fail { process } = self.planner.entry else {
            unreachable!()
        };
        fail(alloc, &mut self.hall, process, address);
    }

    /// Puts the front of the queue to its back.
    fn pass(&mut self, process: u32) -> Result<(), NoMemory>
        requires { self.old.passed ≤ length self.old.queue.items }
        ensures reached { OnOk result ((t : Task) → HasPassed t process self.old → IsReached t [] self.new) }
        ensures left { OnOk result ((t : Task) → entries_left t self.new ≡ entries_left t self.old) }
        ensures queued { OnOk result (length self.new.queue.items ≡ suc (length self.old.queue.items)) }
        ensures passed { OnOk result (self.new.passed ≡ self.old.passed + 1) }
    {
        run_laws::leading_moves();
        if self.queue.push_back(process).is_err() {
            return Err(NoMemory);
        }
        self.passed += 1;
        Ok(())
    }

    /// The ruling on a process that was taken from the front of the queue.
    fn rule_front(&mut self, alloc: Global, task: &Task, process: u32) -> Result<Ruled, NoMemory>
        requires task { IsTask task.now }
        requires reached { IsReached task.now (process ∷ []) self.old }
        requires room { HasRoom task.now self.old }
        ensures { IfOk result (RuleGives task.now (entries_left task.now self.old) (suc (length self.old.queue.items)) self.old.passed
            self.new) }
    {
        run_laws::front_moves();
        run_laws::leading_moves();
        run_laws::words_in_use();
        match turn(&mut self.hall, &mut self.planner, task.code, process) {
            Turn::Committed { .. } => {
                self.note_commit()?;
                Ok(Ruled::Makes)
            }
            Turn::Hung { .. } => {
                self.note_hang();
                Ok(Ruled::Makes)
            }
            Turn::Fails => {
                self.make_fail(alloc, process);
                Ok(Ruled::Ends(Outcome::Failed))
            }
            Turn::Spent(Spent::Cells { .. }) => {
                self.pass(process)?;
                Ok(Ruled::Passes)
            }
            Turn::NoMemory => Err(NoMemory),
            // The hall is alone, the front is Ready, and commits and moves are left.
            Turn::Gone(_) => unreachable!(),
            Turn::Busy { .. } => unreachable!(),
            Turn::Stale { .. } => unreachable!(),
            Turn::Spent(Spent::Moves) => unreachable!(),
            Turn::Spent(Spent::Commits) => unreachable!(),
        }
    }

    /// Whether the queue and the limits end a run that is going: no commits or moves are left, or each process of the queue went to its
    /// back.
    fn is_at_end(&self) -> bool
        ensures { result ≡ (nat_eq self.now.hall.quota.commits 0 || nat_eq self.now.hall.quota.moves 0
            || nat_le (length self.now.queue.items) self.now.passed) }
    {
        let quota = self.hall.quota();
        quota.commits == 0 || quota.moves == 0 || self.queue.len() <= self.passed
    }

    /// The outcome of an open run that ends here.
    fn open_outcome(&self) -> Outcome
        ensures { (t : Task) → result ≡ open_outcome_by self.now.queue.items (counts_of t self.now) }
    {
        let quota = self.hall.quota();
        if self.queue.is_empty() {
            if self.asleep == 0 {
                Outcome::Terminated
            } else {
                Outcome::Suspended
            }
        } else if quota.commits == 0 || quota.moves == 0 {
            Outcome::Budget
        } else {
            Outcome::Full
        }
    }

    /// The ruling of an open run of which no control is due: it ends, the front of the queue goes to its back, or the front's entry is
    /// made.
    fn rule_queue(&mut self, alloc: Global, task: &Task) -> Result<Ruled, NoMemory>
        requires task { IsTask task.now }
        requires reached { IsReached task.now [] self.old }
        requires going { IsGoing (counts_of task.now self.old) }
        ensures { IfOk result (RuleGives task.now (entries_left task.now self.old) (length self.old.queue.items) self.old.passed self.new) }
    {
        run_laws::ends();
        run_laws::counts();
        if self.is_at_end() {
            return Ok(Ruled::Ends(self.open_outcome()));
        }
        let Some(process) = self.queue.pop_front() else {
            unreachable!()
        };
        self.rule_front(alloc, task, process)
    }

    /// Makes the next control, where it is due, and answers whether it was.
    fn make_due(&mut self, alloc: Global, task: &Task) -> bool
        requires task { IsTask task.now }
        requires reached { IsReached task.now [] self.old }
        requires running { is_over (mode_of self.old.mode) ≡ false }
        ensures made { result ≡ true → IsReached task.now [] self.new × (entries_left task.now self.new < entries_left task.now self.old) }
        ensures none { result ≡ false → self.new ≡ self.old }
        ensures not_due { result ≡ false → is_due (counts_of task.now self.old).controls (counts_of task.now self.old).moved ≡ false }
    {
        run_laws::leading_moves();
        let moved = task.limits.moves - self.hall.quota().moves;
        let Some(next) = task.controls.get(self.made as usize) else {
            return false;
        };
        if next.after != moved {
            return false;
        }
        control(alloc, &mut self.hall, next.act);
        self.mode = mode_behind(self.mode, next.act);
        self.made += 1;
        true
    }

    /// The next ruling: the run ends, the front of the queue goes to its back, or an entry is made. `Err` is want of memory.
    pub(crate) fn rule(&mut self, alloc: Global, task: &Task) -> Result<Ruled, NoMemory>
        requires task { IsTask task.now }
        requires reached { IsReached task.now [] self.old }
        ensures { IfOk result (RuleGives task.now (entries_left task.now self.old) (length self.old.queue.items) self.old.passed self.new) }
    {
        run_laws::ends();
        run_laws::counts();
        if let RunMode::Aborted = self.mode {
            return Ok(Ruled::Ends(Outcome::Aborted));
        }
        if self.make_due(alloc, task) {
            return Ok(Ruled::Makes);
        }
        if let RunMode::Held = self.mode {
            return Ok(Ruled::Ends(Outcome::Held));
        }
        self.rule_queue(alloc, task)
    }
}
