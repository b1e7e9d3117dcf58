//! Laws of decisions: where bindings have no cycle, each goal has one. The function does nothing: its contract is the laws.
#![tactic(auto)]

ghost use Rattle.decision_laws.specs.Laws.{AGoalHasADecision, LawfulStatesDecide};

/// Each goal over places has a decision, where bindings have no cycle; so has each process of a lawful state.
pub fn all_goals_decide()
    ensures goals { AGoalHasADecision }
    ensures processes { LawfulStatesDecide }
{}
