//! A goal is laid into a new heap: its places, and then item by item.
ghost use Rattle.std.specs.Prelude.{◌≡◌, ◌%◌, ◌<◌, ◌≤◌, None, IfNone, IfSome, length};
ghost use Rattle.fcp_model.specs.declared.source.Module.{Module};
ghost use Rattle.heap_words.specs.Heaps.{AreFresh, fresh_word};
ghost use Rattle.goal_layout.specs.FirstFit.{first_fit};
ghost use Rattle.goal_layout.specs.Pages.{rooms};
ghost use Rattle.goal_layout.specs.Goals.{AreNew, MayBeLaid, LaysGoal, IsLaid, goal_pieces};

use crate::cells::goal_cells;
use crate::items::lay_item;
use crate::places::lay_places;
use fcp_model::LoadedGoal;
use heap_words::{Cell, encode};

const PAGE: u32 = 1024;

/// How a goal was laid.
#[derive(Clone, Copy, Debug, PartialEq, Eq)]
pub enum Laid {
    /// All of it is laid, and the first process is at the address.
    Done(u32),
    /// Its pieces do not all fit: the cells of the goal, and how many words are free in all pages.
    NoRoom { needed: u32, free: u32 },
}

/// Lays all pieces, and answers the address of the first process.
fn lay_all(words: &mut [u64], goal: &LoadedGoal) -> Option<u32>
    requires new { AreNew words.old }
    requires loads { (m : Module) × MayBeLaid m goal.now }
    ensures none { (m : Module) → MayBeLaid m goal.now → IfNone result (first_fit (rooms words.old) (goal_pieces m goal.now.0) ≡ None) }
    ensures laid { (m : Module) → MayBeLaid m goal.now → IfSome result (λ p. LaysGoal m goal.now.0 p words.old words.new) }
{
    let text = goal.goal();
    lay_places(words, text.names.len() as u32)?;
    let items = text.items.as_slice();
    let first = lay_item(words, &items[0].call, goal.procedure(0), 1)?;
    for at in 1..items.len() {
        lay_item(
            words,
            &items[at].call,
            goal.procedure(at as u32),
            at as u32 + 1,
        )?;
    }
    Some(first)
}

/// The word that a new heap has at an address.
fn fresh(addr: u32) -> u64
    requires { addr < 4000000000 }
    ensures { result ≡ fresh_word addr }
{
    if addr % PAGE == 0 {
        encode(Cell::Top(addr + 1))
    } else {
        0
    }
}

/// Makes words those of a new heap.
fn renew(words: &mut [u64])
    requires { length words.old ≤ 4000000000 }
    ensures { AreFresh (length words.old) words.new }
{
    for addr in 0..words.len() as u32 {
        words[addr as usize] = fresh(addr);
    }
}

/// Lays a goal that loads into the words of a new heap. Each of its pieces goes into the first page that has room for it: the places
/// by number, and then item by item the pieces of its terms, from the left and wholes before their parts, and its process. It takes
/// no memory.
pub fn lay_goal(words: &mut [u64], goal: &LoadedGoal) -> Laid
    requires new { AreNew words.old }
    requires loads { (m : Module) × MayBeLaid m goal.now }
    ensures { (m : Module) → MayBeLaid m goal.now → IsLaid m goal.now.0 words.old words.new result }
{
    match lay_all(words, goal) {
        Some(first) => Laid::Done(first),
        None => {
            renew(words);
            Laid::NoRoom {
                needed: goal_cells(goal.goal()),
                free: (PAGE - 1) * (words.len() as u32 / PAGE),
            }
        }
    }
}
