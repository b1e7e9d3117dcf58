//! Laws of bindings with shorter ways. Each function does nothing: its contract is the law.
#![tactic(auto)]

ghost use Rattle.leading_laws.specs.Laws.{GoalsDecideAlike, ClausesAreAlike, CellsAreAlike};

/// What is decided over bindings with shorter ways, for a goal to which another leads, is decided for the other goal over the
/// bindings themselves, with as many cells.
pub fn goals_decide_alike()
    ensures decisions { GoalsDecideAlike }
    ensures clauses { ClausesAreAlike }
    ensures cells { CellsAreAlike }
{}
