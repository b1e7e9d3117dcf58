//! The goal of a text in a heap.
ghost use Rattle.std.specs.Prelude.{◌≤◌, IfOk, IfSome, length};
ghost use Rattle.laid_texts.specs.Texts.{IsLaidText};

use fcp_loader::{load, load_goal};
use fcp_model::{Names, Refused};
use fcp_reader::{read_goal, read_module};
use goal_layout::{Laid, lay_goal};
use heap_words::PlainHeap;
use std::alloc::Global;

/// A goal in a heap: the address of its first process, and how many variables it has. Their places have their words at 2, 4 and so on.
#[derive(Drop)]
pub struct LaidGoal {
    pub heap: PlainHeap,
    pub process: u32,
    pub variables: usize,
}

/// Lays the goal of a text, which calls the procedures of a module's text, into a new heap of so many pages; `None` where it finds
/// no room. What the module or the goal is refused for is the error.
pub fn lay_text(
    alloc: Global,
    file: &[u8],
    goal: &[u8],
    pages: u32,
) -> Result<Option<LaidGoal>, Refused>
    requires file { length file.now ≤ 1048576 }
    requires goal { length goal.now ≤ 1048576 }
    requires pages { pages ≤ 3906250 }
    ensures { IfOk result (λ o. IfSome o (IsLaidText file.now goal.now)) }
{
    let mut names = Names::make(alloc)?;
    let read = read_module(alloc, file, &mut names)?;
    let loaded = load(alloc, read)?;
    let goal = read_goal(alloc, goal, &mut names)?;
    let numbered = load_goal(alloc, &loaded, goal)?;
    let heap = PlainHeap::make(alloc, pages)?;
    let mut words = heap.into_words();
    match lay_goal(&mut words, &numbered) {
        Laid::Done(process) => Ok(Some(LaidGoal {
            heap: PlainHeap::of_words(words),
            process,
            variables: numbered.goal().names.len(),
        })),
        Laid::NoRoom { needed: _, free: _ } => Ok(None),
    }
}
