//! The beginning of the run.
ghost use Rattle.std.specs.Prelude.{◌≡◌, ◌≤◌, ◌<◌, [], length, IfOk};
ghost use Rattle.worker_crew.specs.Tasks.{IsTask};
ghost use Rattle.worker_crew.specs.Reached.{IsReached, AreFirstWords};

use crate::engine::Engine;
use crate::mode::RunMode;
use crate::task::Task;
use commit_engine::PlainHall;
use fcp_model::{GoalText, NoMemory};
use goal_layout::{Laid, goal_cells, lay_goal};
use heap_words::PlainHeap;
use move_plans::Planner;
use ready_lists::ready_processes;
use std::alloc::Global;
use std::collections::VecDeque;
use word_commit::Quota;

/// How many cells a page of 1,024 words takes for sure: the words of an entry stand in pieces of at most 95 words.
const PAGE_CELLS: u64 = 928;

/// The greatest number of pages of a heap.
const MOST_PAGES: u32 = 3_906_250;

/// The most controls of a task. So many entries more than there are moves have room in the log.
const MOST_CONTROLS: u32 = 64;

/// The pages in which a goal and so many cells of entries have room. A move of more cells than are left is not planned.
fn pages_for(cells: u32, goal: &GoalText) -> u32
    requires { length goal.now.names ≤ 250 }
{
    let all = cells as u64 + goal_cells(goal) as u64;
    ((all + PAGE_CELLS - 1) / PAGE_CELLS + 1) as u32
}

/// The words of a new heap in which the task's goal was laid. `Err` is want of memory, or of pages.
fn first_words(alloc: Global, task: &Task) -> Result<Vec<u64>, NoMemory>
    requires { IsTask task.now }
    ensures { IfOk result (λ ws. AreFirstWords task.now ws.items) }
{
    let pages = pages_for(task.limits.cells, task.goal.goal());
    if pages > MOST_PAGES {
        return Err(NoMemory);
    }
    let mut words = PlainHeap::make(alloc, pages)?.into_words();
    match lay_goal(words.as_mut_slice(), task.goal) {
        Laid::Done(_) => Ok(words),
        Laid::NoRoom { .. } => Err(NoMemory),
    }
}

/// The engine before the first entry: the goal's processes in the queue, in their order. `Err` is want of memory.
pub(crate) fn start(alloc: Global, task: &Task) -> Result<Engine, NoMemory>
    requires { IsTask task.now }
    ensures { IfOk result (λ e. IsReached task.now [] e) }
{
    run_laws::counts();
    ready_lists::states();
    let words = first_words(alloc, task)?;
    let ready = ready_processes(alloc, words.as_slice())?;
    let quota = Quota {
        commits: task.limits.commits,
        moves: task.limits.moves,
        cells: task.limits.cells,
    };
    let hall = PlainHall::of_words(alloc, words, quota, task.limits.moves + MOST_CONTROLS)?;
    Ok(Engine {
        hall,
        planner: Planner::make(alloc)?,
        queue: VecDeque::from_vec(ready),
        passed: 0,
        asleep: 0,
        made: 0,
        mode: RunMode::Open,
    })
}
