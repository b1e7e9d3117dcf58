//! Loading a module, and a goal for it.
ghost use Rattle.std.specs.Prelude.{◌<◌, ◌≤◌, ◌^◌, ◌↔◌, length, All, IsTrue};
ghost use Rattle.fcp_loader.specs.Loading.{Loads, LoadsGoal};

use crate::checks::{fault_in_items, fault_in_module};
use fcp_model::{Clause, GoalText, Loaded, LoadedGoal, Module, NoMemory, Refused};
use std::alloc::Global;

/// Whether clauses and arguments are few enough to be numbered in 32 bits.
fn can_be_numbered(clauses: &[Clause]) -> bool
    ensures { IsTrue result ↔ ((length clauses.now < 2 ^ 32) × All (λ c. length c.args < 2 ^ 32) clauses.now) }
{
    clauses.len() <= u32::MAX as usize
        && clauses
            .iter()
            .all(|clause| clause.args.len() <= u32::MAX as usize)
}

/// The module with the index of its procedures, or its first fault beyond the grammar: by the number of its code, and then
/// by its place. After an error the module is given up.
pub fn load(alloc: Global, module: Module) -> Result<Loaded, Refused>
    ensures { Loads «module» result }
{
    // The index numbers clauses and arguments in 32 bits, and has no room for more. No text makes so many.
    if !can_be_numbered(module.clauses.as_slice()) {
        return Err(Refused::NoMemory(NoMemory));
    }
    let Ok(loaded) = Loaded::index(alloc, module) else {
        return Err(Refused::NoMemory(NoMemory));
    };
    match fault_in_module(&loaded) {
        Some(fault) => Err(Refused::Fault(fault)),
        None => Ok(loaded),
    }
}

/// The goal with the numbers of its items' procedures in the module, or its first fault beyond the grammar, as for a
/// module. It takes no memory, and never answers that memory ran out. After an error the goal is given up.
pub fn load_goal(_alloc: Global, loaded: &Loaded, goal: GoalText) -> Result<LoadedGoal, Refused>
    requires few { length goal.items ≤ 256 }
    ensures { LoadsGoal loaded.now goal result }
{
    match fault_in_items(loaded, goal.items.as_slice()) {
        Some(fault) => Err(Refused::Fault(fault)),
        None => Ok(LoadedGoal::of(loaded, goal)),
    }
}
