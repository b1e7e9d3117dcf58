ghost use Rattle.std.specs.Prelude.{◌≡◌, ◌<◌, ◌≤◌, length, slice_index, All, IsSome};
ghost use Rattle.fcp_model.specs.Goals.{number_of_call, number_of_item, AreNumbersOf};

use crate::{Call, GoalText, Loaded};
use std::marker::Model;

/// The number that stands for `true` in place of a procedure's.
pub const TRUE_PROCEDURE: u32 = 4294967293;

/// The number that stands for `=` in place of a procedure's.
pub const UNIFY_PROCEDURE: u32 = 4294967294;

/// The number that stands for `:=` in place of a procedure's.
pub const ASSIGN_PROCEDURE: u32 = 4294967295;

/// A goal with the number of each item's procedure in a module.
/// Contracts see the pair of the goal and the numbers, which are as many as the items.
#[derive(Drop)]
pub struct LoadedGoal {
    goal: GoalText,
    numbers: [u32; 256],
}

impl Model for LoadedGoal {
    ghost use Rattle.std.specs.Prelude.{◌≤◌, List, ℕ, length, take};
    ghost use Rattle.fcp_model.specs.declared.source.GoalText.{GoalText};

    ghost Value = { GoalText × List ℕ };

    ghost use Rattle.fcp_model.specs.contracts.term.Term as term;
    ghost use Rattle.fcp_model.specs.contracts.term.Expr as expr;
    ghost use Rattle.std.specs.Coded.{codes};

    ghost coded = { Prim.hlevel (codes, term.the_row.coded, expr.the_row.coded) };

    ghost view = { λ l. (l.goal, take (length l.goal.items) l.numbers) };

    ghost invariant = { λ l. length l.goal.items ≤ 256 };
}

impl LoadedGoal {
    /// The goal with its numbers in a module, which takes no memory.
    /// Each item is a call of a procedure of the module, `true` with no argument, `A = B`, or `A := E`.
    pub fn of(loaded: &Loaded, goal: GoalText) -> LoadedGoal
        requires few { length goal.items ≤ 256 }
        requires callable { All (λ i. IsSome (number_of_item loaded.now i)) goal.items }
        ensures goal { result.0 ≡ goal }
        ensures numbers { AreNumbersOf loaded.now goal.items result.1 }
    {
        let mut numbers = [0; 256];
        for (at, item) in goal.items.as_slice().iter().enumerate() {
            numbers[at] = number_of(loaded, &item.call).unwrap();
        }
        LoadedGoal { goal, numbers }
    }

    /// The goal.
    pub fn goal(&self) -> &GoalText
        ensures { result.now ≡ self.now.0 }
    {
        &self.goal
    }

    /// The number of an item's procedure. Items are numbered from 0.
    pub fn procedure(&self, item: u32) -> u32
        requires { item < length self.now.0.items }
        ensures { result ≡ slice_index self.now.1 item }
    {
        self.numbers[item as usize]
    }
}

/// The number of the procedure that a call names, or `None` where a goal may not make the call.
pub fn number_of(loaded: &Loaded, call: &Call) -> Option<u32>
    ensures { result ≡ number_of_call loaded.now call.now }
{
    match call {
        Call::User { name, args } if name.is_true() && args.len() == 0 => Some(TRUE_PROCEDURE),
        Call::User { name, args } => loaded.find_called(*name, args.len()),
        Call::Unify(_, _) => Some(UNIFY_PROCEDURE),
        Call::Assign(_, _) => Some(ASSIGN_PROCEDURE),
        Call::Same(_, _) | Call::NotSame(_, _) | Call::Compare(_, _, _) => None,
    }
}
