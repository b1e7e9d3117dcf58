//! Where a replay begins.
ghost use Rattle.std.specs.Prelude.{◌≡◌, ◌+◌, ◌*◌, ◌<◌, ◌≤◌, ℕ, List, [], IfOk};
ghost use Rattle.fcp_model.specs.declared.source.Module.{Module};
ghost use Rattle.fcp_model.specs.Translation.{program_of, start_of};
ghost use Rattle.goal_layout.specs.Goals.{MayBeLaid, LaysGoal};
ghost use Rattle.log_replay.specs.Replays.{IsReplayed, room_of};

use crate::mode::RunMode;
use crate::ready_table::ReadyTable;
use crate::replay::Replay;
use commit_engine::PlainHall;
use fcp_model::{Entry, LoadedGoal, NoMemory};
use goal_layout::{Laid, goal_cells, lay_goal};
use heap_words::{PlainHeap, Trail};
use move_plans::Planner;
use ready_lists::{ready_processes, states};
use std::alloc::Global;
use word_commit::Quota;
use word_texts::TextLists;

/// How many cells of entries a page holds at least. A page has 1,023 words behind its top, and no piece is longer than 95.
const CELLS: u32 = 928;

/// The most pages that a heap has.
const PAGES: u32 = 3_906_250;

/// The pages for so many cells, where a page holds 928 of them at least, with one page more: at most 3,906,250.
fn pages_for(cells: u32) -> u32
    ensures few { result ≤ 3906250 }
    ensures room { result < 3906250 → cells + 928 ≤ 928 * result }
{
    let pages = cells / CELLS + 2;
    if pages < PAGES { pages } else { PAGES }
}

/// The words of a new heap in which the goal is laid, with room for so many cells of entries.
fn laid_words(alloc: Global, goal: &LoadedGoal, cells: u32) -> Result<Vec<u64>, NoMemory>
    requires { (m : Module) × MayBeLaid m goal.now }
    ensures { (m : Module) → MayBeLaid m goal.now
        → IfOk result (λ ws. (p : ℕ) × (before : List ℕ) × LaysGoal m goal.now.0 p before ws.items) }
{
    let cells = cells.saturating_add(goal_cells(goal.goal()));
    let mut words = PlainHeap::make(alloc, pages_for(cells))?.into_words();
    match lay_goal(words.as_mut_slice(), goal) {
        Laid::Done(_) => Ok(words),
        Laid::NoRoom { needed: _, free: _ } => Err(NoMemory),
    }
}

impl Replay {
    /// A replay before the first entry of a goal, with room for so many entries, numbered from 1, which may have so many cells together.
    /// The only error is want of memory.
    pub fn make(
        alloc: Global,
        goal: &LoadedGoal,
        cells: u32,
        entries: u32,
    ) -> Result<Replay, NoMemory>
        requires laid { (m : Module) × MayBeLaid m goal.now }
        requires cells { cells ≤ 64000000 }
        requires entries { entries < 134217728 }
        ensures replayed { (m : Module) → MayBeLaid m goal.now
            → IfOk result (IsReplayed (program_of m) (start_of m goal.now.0) cells []) }
        ensures room { IfOk result (λ r. room_of r ≡ entries) }
    {
        states();
        let words = laid_words(alloc, goal, cells)?;
        let processes = ready_processes(alloc, words.as_slice())?;
        let quota = Quota {
            commits: entries,
            moves: entries,
            cells,
        };
        let mut hall = PlainHall::of_words(alloc, words, quota, entries)?;
        let mut ready = ReadyTable::make(alloc);
        let first = processes.as_slice();
        ready.put_all(&mut hall, first)?;
        Ok(Replay {
            hall,
            planner: Planner::make(alloc)?,
            ready,
            mode: RunMode::Open,
            entry: Entry::Snapshot,
            entries: 0,
            bound: Vec::new(alloc),
            woken: Vec::new(alloc),
            waits: Vec::new(alloc),
            lists: TextLists::make(alloc),
            trail: Trail::make(alloc)?,
        })
    }
}
