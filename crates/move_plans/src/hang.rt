//! The plan of a hang.
ghost use Rattle.std.specs.Prelude.{◌≡◌, ◌*◌, ◌<◌, ◌≤◌, ℕ, [], length, true, OnOk, IfOk};
ghost use Rattle.word_states.specs.Trials.{IsReadWait};
ghost use Rattle.word_states.specs.Words.{addresses_of};
ghost use Rattle.page_layout.specs.Looking.{Rise};
ghost use Rattle.safe_tries.specs.Stored.{IsStored};
ghost use Rattle.trial_machine.specs.Deciding.{Decides, handed_over};
ghost use Rattle.trial_machine.specs.Stores.{Loads};
ghost use Rattle.trial_machine.specs.declared.decide.Trial.TheVariants.{Wait};
ghost use Rattle.word_moves.specs.Planned.{ReadsProcess, IsPlannedHang, IsHangMove};
ghost use Rattle.move_plans.specs.Plans.{move_of, PlanSays};
ghost use Rattle.move_plans.specs.Stages.{rereads, LaysHang};

use crate::copies::put_all;
use crate::fail::process_by;
use crate::places::{put_places, put_threes};
use crate::planner::{Planned, Planner};
use crate::room::find_room;
use fcp_model::{Entry, NoMemory};
use heap_words::Words;
use machine_code::Code;
use page_layout::{first_open, put_hang};

/// How many places a process may wait for: their entries have addresses of 32 bits.
const MOST: usize = 89_478_484;

impl Planner {
    /// Lays the waiting entries of a process that waits, and answers whether they found room.
    fn lay_hang<W: Words>(
        &mut self,
        words: &mut W,
        process: u32,
        pages: u32,
    ) -> Result<bool, NoMemory>
        requires stored { IsStored W.addresses W.sound W.had W.shown W.later self.old.machine.trail.kept words.old }
        requires free { self.old.machine.trail.binds ≡ [] }
        requires wait { IsReadWait self.old.machine.trail.kept self.old.machine.waits }
        requires small { pages ≤ 3906250 }
        requires known { (p : ℕ) → p < pages → W.knows words.old (1024 * p) }
        ensures between { W.later words.old words.new }
        ensures loaded { OnOk result (Loads W.addresses W.sound W.had W.shown W.later W.gave self.old.machine.trail.kept words.old
            self.new.machine.trail.kept words.new) }
        ensures hands { OnOk result (handed_over self.new.machine ≡ rereads (handed_over self.old.machine)
            self.new.machine.trail.kept) }
        ensures lays { IfOk result (λ t. t ≡ true → LaysHang self.old.machine.trail.kept self.new process) }
    {
        put_places(
            &mut self.lists,
            &mut self.machine.trail,
            words,
            self.machine.waits.as_slice(),
        )?;
        put_threes(&mut self.sizes, self.lists.len())?;
        let laid = find_room(
            &mut self.machine.trail,
            words,
            &mut self.rooms,
            &mut self.table,
            self.open,
            pages,
            self.sizes.as_slice(),
        )?;
        self.machine.trail.once();
        Ok(laid)
    }

    /// Puts what is known of a hang whose entries are laid.
    fn put_hang_move(&mut self, process: u32, name: u64) -> Result<(), NoMemory>
        requires small { name < 36028797018963968 }
        requires planned { IsPlannedHang self.old.machine.trail.kept process name self.old.lists.items self.old.rooms.items
            self.old.table.items }
        requires rise { Rise self.old.rooms.items }
        requires places { addresses_of self.old.lists.items ≡ self.old.machine.waits }
        requires few { length self.old.machine.waits < 89478485 }
        ensures { OnOk result (IsHangMove (move_of self.new process) self.old.machine.trail.kept process name self.old.lists.items
            self.old.rooms.items self.old.table.items) }
    {
        let lists = self.lists.as_slice();
        put_hang(
            &mut self.writes,
            self.rooms.as_slice(),
            self.table.as_slice(),
            process,
            lists,
        )?;
        put_all(&mut self.waits, self.machine.waits.as_slice())?;
        self.children.clear();
        self.woken.clear();
        self.bound.clear();
        self.cells = 3 * self.lists.len() as u32;
        self.entry = Entry::Hang {
            process: process_by(name),
        };
        self.open = first_open(self.rooms.as_slice(), self.open);
        Ok(())
    }

    /// The cells of the hang of a process that waits. `Err` is the answer for more places than may be waited for.
    fn hang_cells(&self) -> Result<u32, NoMemory>
        ensures cells { IfOk result (λ n. n ≡ 3 * length self.now.machine.waits) }
        ensures few { OnOk result (length self.now.machine.waits < 89478485) }
    {
        let count = self.machine.waits.as_slice().len();
        if count > MOST {
            return Err(NoMemory);
        }
        Ok(3 * count as u32)
    }

    /// Plans the hang of a process that waits by what was read, whose cells are left.
    fn plan_small_hang<W: Words>(
        &mut self,
        code: &Code,
        words: &mut W,
        process: u32,
        name: u64,
        pages: u32,
        left: u32,
    ) -> Result<Planned, NoMemory>
        requires stored { IsStored W.addresses W.sound W.had W.shown W.later self.old.machine.trail.kept words.old }
        requires free { self.old.machine.trail.binds ≡ [] }
        requires mover { ReadsProcess self.old.machine.trail.kept process name }
        requires small_name { name < 36028797018963968 }
        requires decided { Decides code.now self.old.machine process Wait }
        requires few { length self.old.machine.waits < 89478485 }
        requires enough { 3 * length self.old.machine.waits ≤ left }
        requires small { pages ≤ 3906250 }
        requires known { (p : ℕ) → p < pages → W.knows words.old (1024 * p) }
        ensures between { W.later words.old words.new }
        ensures loaded { OnOk result (Loads W.addresses W.sound W.had W.shown W.later W.gave self.old.machine.trail.kept words.old
            self.new.machine.trail.kept words.new) }
        ensures says { IfOk result (λ d. PlanSays code.now self.new process left d) }
    {
        let laid = self.lay_hang(words, process, pages)?;
        if laid {
            self.put_hang_move(process, name)?;
            word_moves::fits();
            word_moves::safe();
            return Ok(Planned::Hangs);
        }
        Ok(Planned::Full)
    }

    /// Plans the hang of a process that waits by what was read.
    pub(crate) fn plan_hang<W: Words>(
        &mut self,
        code: &Code,
        words: &mut W,
        process: u32,
        name: u64,
        pages: u32,
        left: u32,
    ) -> Result<Planned, NoMemory>
        requires stored { IsStored W.addresses W.sound W.had W.shown W.later self.old.machine.trail.kept words.old }
        requires free { self.old.machine.trail.binds ≡ [] }
        requires mover { ReadsProcess self.old.machine.trail.kept process name }
        requires small_name { name < 36028797018963968 }
        requires decided { Decides code.now self.old.machine process Wait }
        requires small { pages ≤ 3906250 }
        requires known { (p : ℕ) → p < pages → W.knows words.old (1024 * p) }
        ensures between { W.later words.old words.new }
        ensures loaded { OnOk result (Loads W.addresses W.sound W.had W.shown W.later W.gave self.old.machine.trail.kept words.old
            self.new.machine.trail.kept words.new) }
        ensures says { IfOk result (λ d. PlanSays code.now self.new process left d) }
    {
        let cells = self.hang_cells()?;
        if cells > left {
            return Ok(Planned::Large { cells });
        }
        let planned = self.plan_small_hang(code, words, process, name, pages, left)?;
        Ok(planned)
    }
}
