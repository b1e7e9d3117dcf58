//! The words of a goal that a text gives.
ghost use Rattle.std.specs.Prelude.{◌≡◌, ℕ, ◌+◌, ◌<◌, ◌≤◌, IsTrue, IfOk, IfSome, length, true};
ghost use Rattle.heap_words.specs.Cells.{decoded};
ghost use Rattle.heap_words.specs.Heaps as heaps;

use fcp_loader::{load, load_goal};
use fcp_model::{Names, Refused};
use fcp_reader::{read_goal, read_module};
use goal_layout::{Laid, lay_goal};
use heap_words::{Cell, PlainHeap, decode};
use std::alloc::Global;

const PAGE: u32 = 1024;

/// The words of the goal of a text in a heap of so many pages, and the address of its first process; `None` where it finds no room.
pub(crate) fn laid_text(
    alloc: Global,
    file: &[u8],
    goal: &[u8],
    pages: u32,
) -> Result<Option<(Vec<u64>, u32)>, Refused>
    requires file { length file.now ≤ 1048576 }
    requires goal { length goal.now ≤ 1048576 }
    requires pages { pages ≤ 3906250 }
    ensures { IfOk result (λ o. IfSome o (λ r. heaps.IsHeap r.0.items)) }
{
    let mut names = Names::make(alloc)?;
    let read = read_module(alloc, file, &mut names)?;
    let loaded = load(alloc, read)?;
    let goal = read_goal(alloc, goal, &mut names)?;
    let numbered = load_goal(alloc, &loaded, goal)?;
    let heap = PlainHeap::make(alloc, pages)?;
    let mut words = heap.into_words();
    match lay_goal(&mut words, &numbered) {
        Laid::Done(process) => Ok(Some((words, process))),
        Laid::NoRoom { needed: _, free: _ } => Ok(None),
    }
}

/// The address that a page's first word says, or 0 where it is no top.
fn top_of(word: u64) -> u32
    ensures { result ≡ heaps.top_said (decoded word) }
{
    match decode(word) {
        Some(Cell::Top(top)) => top,
        _ => 0,
    }
}

/// The address that a page says whose first word is there.
fn top_at(words: &[u64], first: u32) -> u32
    requires { first < length words.now }
    ensures { result ≡ heaps.top_at words.now first }
{
    top_of(words[first as usize])
}

/// Whether an address lies below its page's top. So it may be loaded.
#[tactic(auto, unfolding(heap_words::specs::Heaps::is_inside))]
fn is_inside(words: &[u64], addr: u32) -> bool
    ensures { IsTrue result → heaps.is_inside words.now addr ≡ true }
{
    if addr as usize >= words.len() {
        return false;
    }
    addr < top_at(words, addr - addr % PAGE)
}

/// Whether so many addresses from the first on may be loaded.
pub(crate) fn are_inside(words: &[u64], first: u32, count: u32) -> bool
    ensures { IsTrue result → (k : ℕ) → k < count → heaps.is_inside words.now (first + k) ≡ true }
{
    for k in 0..count {
        let Some(addr) = first.checked_add(k) else {
            return false;
        };
        if !is_inside(words, addr) {
            return false;
        }
    }
    true
}
