//! Laws of texts over bindings with shorter ways. Each function does nothing: its contract is the law.
#![tactic(auto)]

ghost use Rattle.leading_texts.specs.Laws.{TextsComeAlike, GoalTextsComeAlike};

/// The text over bindings with shorter ways of a term to which another leads is the text of the other over the bindings themselves.
pub fn texts_come_alike()
    ensures { TextsComeAlike }
{}

/// And so is that of a goal.
pub fn goal_texts_come_alike()
    ensures { GoalTextsComeAlike }
{}
