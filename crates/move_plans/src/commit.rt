//! The plan of a commit.
ghost use Rattle.std.specs.Prelude.{◌≡◌, ◌*◌, ◌<◌, ◌≤◌, ℕ, [], true, OnOk, IfOk};
ghost use Rattle.std.specs.List.{concat};
ghost use Rattle.word_states.specs.Trials.{IsReadCommit};
ghost use Rattle.word_states.specs.Words.{addresses_of};
ghost use Rattle.page_layout.specs.Looking.{Rise};
ghost use Rattle.safe_tries.specs.Stored.{IsStored};
ghost use Rattle.trial_machine.specs.Deciding.{Decides, handed_over};
ghost use Rattle.trial_machine.specs.Stores.{Loads};
ghost use Rattle.trial_machine.specs.declared.decide.Trial.TheVariants.{Commit};
ghost use Rattle.word_moves.specs.Planned.{ReadsProcess, IsCommitMove};
ghost use Rattle.move_plans.specs.Plans.{move_of, PlanSays};
ghost use Rattle.move_plans.specs.Sizes.{CellsRead};
ghost use Rattle.move_plans.specs.Stages.{rereads, sizes_of, PlansCommit, LaysCommit};

use crate::cells::load_cells;
use crate::children::put_children;
use crate::fail::process_by;
use crate::planner::{Planned, Planner};
use crate::room::find_room;
use crate::woken::find_woken;
use fcp_model::{Entry, NoMemory};
use heap_words::Words;
use machine_code::Code;
use page_layout::{first_open, put_commit};

impl Planner {
    /// Loads the numbers of a process that commits by what was read, and answers the cells of its commit.
    fn read_cells<W: Words>(
        &mut self,
        code: &Code,
        words: &mut W,
        process: u32,
        name: u64,
    ) -> Result<u32, NoMemory>
        requires stored { IsStored W.addresses W.sound W.had W.shown W.later self.old.machine.trail.kept words.old }
        requires free { self.old.machine.trail.binds ≡ [] }
        requires mover { ReadsProcess self.old.machine.trail.kept process name }
        requires decided { Decides code.now self.old.machine process Commit }
        ensures between { W.later words.old words.new }
        ensures loaded { OnOk result (Loads W.addresses W.sound W.had W.shown W.later W.gave self.old.machine.trail.kept words.old
            self.new.machine.trail.kept words.new) }
        ensures free { OnOk result (self.new.machine.trail.binds ≡ []) }
        ensures mover { OnOk result (ReadsProcess self.new.machine.trail.kept process name) }
        ensures decided { OnOk result (Decides code.now self.new.machine process Commit) }
        ensures cells { IfOk result (CellsRead code.now self.new.machine.trail.kept process self.new.machine.desk.clause) }
    {
        let clause = self.machine.desk.clause;
        let cells = load_cells(&mut self.machine.trail, words, code, process, clause)?;
        self.machine.trail.once();
        Ok(cells)
    }

    /// Finds whom a commit wakes, and lays its pieces; answers whether all found room.
    fn lay_commit<W: Words>(
        &mut self,
        words: &mut W,
        process: u32,
        pages: u32,
    ) -> Result<bool, NoMemory>
        requires stored { IsStored W.addresses W.sound W.had W.shown W.later self.old.machine.trail.kept words.old }
        requires free { self.old.machine.trail.binds ≡ [] }
        requires commit { IsReadCommit self.old.machine.trail.kept self.old.machine.binds.items self.old.machine.desk.pieces }
        requires small { pages ≤ 3906250 }
        requires known { (p : ℕ) → p < pages → W.knows words.old (1024 * p) }
        ensures between { W.later words.old words.new }
        ensures loaded { OnOk result (Loads W.addresses W.sound W.had W.shown W.later W.gave self.old.machine.trail.kept words.old
            self.new.machine.trail.kept words.new) }
        ensures hands { OnOk result (handed_over self.new.machine ≡ rereads (handed_over self.old.machine)
            self.new.machine.trail.kept) }
        ensures lays { IfOk result (λ t. t ≡ true → LaysCommit self.old.machine.trail.kept self.new process) }
    {
        let binds = self.machine.binds.as_slice();
        find_woken(
            &mut self.wakers,
            &mut self.machine.trail,
            words,
            binds,
            &mut self.bound,
            &mut self.woken,
        )?;
        let laid = find_room(
            &mut self.machine.trail,
            words,
            &mut self.rooms,
            &mut self.table,
            self.open,
            pages,
            self.machine.desk.pieces.sizes(),
        )?;
        self.machine.trail.once();
        Ok(laid)
    }

    /// Puts what is known of a commit whose pieces are laid.
    fn put_commit_move(&mut self, process: u32, name: u64, cells: u32) -> Result<(), NoMemory>
        requires small { name < 36028797018963968 }
        requires planned { PlansCommit self.old process name }
        requires rise { Rise self.old.rooms.items }
        requires bound { self.old.bound.items ≡ addresses_of self.old.machine.binds.items }
        ensures moves { OnOk result (IsCommitMove (move_of self.new process) self.old.machine.trail.kept process name
            self.old.machine.desk.clause self.old.machine.binds.items (sizes_of self.old.machine.desk.pieces)
            (concat self.old.machine.desk.pieces) self.old.woken.items self.old.rooms.items self.old.table.items) }
        ensures cells { OnOk result (self.new.cells ≡ cells) }
    {
        let own = self.machine.desk.pieces.words();
        let sizes = self.machine.desk.pieces.sizes();
        put_commit(
            &mut self.writes,
            self.rooms.as_slice(),
            self.table.as_slice(),
            process,
            self.machine.binds.as_slice(),
            self.woken.as_slice(),
            own,
            sizes,
        )?;
        put_children(&mut self.children, self.table.as_slice(), own, sizes)?;
        self.waits.clear();
        self.cells = cells;
        self.entry = Entry::Commit {
            process: process_by(name),
            clause: self.machine.desk.clause,
        };
        self.open = first_open(self.rooms.as_slice(), self.open);
        Ok(())
    }

    /// Plans the commit of a process that commits by what was read, whose cells were told and are left.
    fn plan_small_commit<W: Words>(
        &mut self,
        code: &Code,
        words: &mut W,
        process: u32,
        name: u64,
        pages: u32,
        left: u32,
        cells: u32,
    ) -> Result<Planned, NoMemory>
        requires stored { IsStored W.addresses W.sound W.had W.shown W.later self.old.machine.trail.kept words.old }
        requires free { self.old.machine.trail.binds ≡ [] }
        requires mover { ReadsProcess self.old.machine.trail.kept process name }
        requires small_name { name < 36028797018963968 }
        requires decided { Decides code.now self.old.machine process Commit }
        requires cells { CellsRead code.now self.old.machine.trail.kept process self.old.machine.desk.clause cells }
        requires enough { cells ≤ left }
        requires small { pages ≤ 3906250 }
        requires known { (p : ℕ) → p < pages → W.knows words.old (1024 * p) }
        ensures between { W.later words.old words.new }
        ensures loaded { OnOk result (Loads W.addresses W.sound W.had W.shown W.later W.gave self.old.machine.trail.kept words.old
            self.new.machine.trail.kept words.new) }
        ensures says { IfOk result (λ d. PlanSays code.now self.new process left d) }
    {
        let laid = self.lay_commit(words, process, pages)?;
        if laid {
            self.put_commit_move(process, name, cells)?;
            word_moves::fits();
            word_moves::safe();
            return Ok(Planned::Commits);
        }
        Ok(Planned::Full)
    }

    /// Plans the commit of a process that commits by what was read.
    pub(crate) fn plan_commit<W: Words>(
        &mut self,
        code: &Code,
        words: &mut W,
        process: u32,
        name: u64,
        pages: u32,
        left: u32,
    ) -> Result<Planned, NoMemory>
        requires stored { IsStored W.addresses W.sound W.had W.shown W.later self.old.machine.trail.kept words.old }
        requires free { self.old.machine.trail.binds ≡ [] }
        requires mover { ReadsProcess self.old.machine.trail.kept process name }
        requires small_name { name < 36028797018963968 }
        requires decided { Decides code.now self.old.machine process Commit }
        requires small { pages ≤ 3906250 }
        requires known { (p : ℕ) → p < pages → W.knows words.old (1024 * p) }
        ensures between { W.later words.old words.new }
        ensures loaded { OnOk result (Loads W.addresses W.sound W.had W.shown W.later W.gave self.old.machine.trail.kept words.old
            self.new.machine.trail.kept words.new) }
        ensures says { IfOk result (λ d. PlanSays code.now self.new process left d) }
    {
        let cells = self.read_cells(code, words, process, name)?;
        if cells > left {
            return Ok(Planned::Large { cells });
        }
        let planned = self.plan_small_commit(code, words, process, name, pages, left, cells)?;
        Ok(planned)
    }
}
