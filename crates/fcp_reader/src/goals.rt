//! Reading a goal's terminals.
ghost use Rattle.std.specs.Prelude.{◌≡◌, ◌≤◌, ◌∷◌, ◌++◌, [], length, IfOk};
ghost use Rattle.fcp_grammar.specs.Limits.{most_items};
ghost use Rattle.fcp_reader.specs.Goals as spec;
ghost use Rattle.fcp_reader.specs.Texts.{ReadsGoal};

use crate::reading::{Stopped, deeper, fault_of};
use fcp_grammar::{ItemStep, MOST_ITEMS, Side, Terminal, step_side};
use fcp_model::{Code, Item, NoMemory, Seq};
use std::alloc::Global;

/// How far a goal is read.
#[derive(Drop)]
pub enum GoalAt {
    /// The items that have ended, and how far the next one is read.
    Items(Seq<Item>, Side),
    /// Behind the `.`.
    Ended(Seq<Item>),
}

/// The terminal behind an item.
fn behind_item(items: Seq<Item>, terminal: Terminal) -> Option<(GoalAt, bool)>
    ensures { result ≡ spec.behind_item items terminal }
{
    match terminal {
        Terminal::Comma => Some((GoalAt::Items(items, Side::Start), false)),
        Terminal::Dot(_) => Some((GoalAt::Ended(items), false)),
        _ => None,
    }
}

/// One more terminal, and whether it is one too many. None where it goes on no goal.
#[tactic(auto, unfolding(crate::specs::Goals::step))]
fn step(
    alloc: Global,
    state: GoalAt,
    terminal: Terminal,
) -> Result<Option<(GoalAt, bool)>, NoMemory>
    ensures { IfOk result (λ r. r ≡ spec.step state terminal) }
{
    let GoalAt::Items(items, side) = state else {
        return Ok(None);
    };
    match step_side(alloc, items.len() >= MOST_ITEMS, side, terminal)? {
        ItemStep::Goes(next, large) => Ok(Some((GoalAt::Items(items, next), large))),
        ItemStep::Ends(item) => Ok(behind_item(items.with(item)?, terminal)),
        ItemStep::Refused => Ok(None),
    }
}

/// The goal's items where it may end here.
#[tactic(auto, unfolding(crate::specs::Goals::whole))]
fn whole(alloc: Global, state: GoalAt) -> Result<Option<Seq<Item>>, NoMemory>
    ensures { IfOk result (λ r. r ≡ spec.whole state) }
{
    let (items, side) = match state {
        GoalAt::Items(items, side) => (items, side),
        GoalAt::Ended(items) => return Ok(Some(items)),
    };
    match step_side(alloc, items.len() >= MOST_ITEMS, side, Terminal::Dot(0))? {
        ItemStep::Ends(item) => Ok(Some(items.with(item)?)),
        ItemStep::Goes(_, _) | ItemStep::Refused => Ok(None),
    }
}

/// The items of the goal that the terminals are, at most `MOST_ITEMS`, or the first fault.
pub fn goal_items_of(alloc: Global, terminals: &[Terminal]) -> Result<Seq<Item>, Stopped>
    ensures reads { ReadsGoal terminals.now result }
    ensures few { IfOk result (λ items. length items ≤ most_items) }
{
    let mut depth: usize = 0;
    let mut state = GoalAt::Items(Seq::empty(alloc), Side::Start);
    for (i, terminal) in terminals.iter().enumerate() {
        let Ok(next) = step(alloc, state, *terminal) else {
            return Err(Stopped::NoMemory);
        };
        let Some((next, large)) = next else {
            return Err(Stopped::Fault(Code::Unexpected, i));
        };
        if let Some(code) = fault_of(depth, *terminal, large) {
            return Err(Stopped::Fault(code, i));
        }
        depth = deeper(depth, *terminal);
        state = next;
    }
    let Ok(items) = whole(alloc, state) else {
        return Err(Stopped::NoMemory);
    };
    match items {
        Some(items) => Ok(items),
        None => Err(Stopped::Fault(Code::Unexpected, terminals.len())),
    }
}
