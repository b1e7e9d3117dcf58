//! Laws of programs and goals that were read from texts. Each function does nothing: its contract is the law.
#![tactic(auto)]

ghost use Rattle.program_laws.specs.Laws.{AProgramOfATextIsClosed, AGoalOfATextIsClosed};
ghost use Rattle.program_laws.specs.Laws.{EachStateOfTextsIsLawful, NoWakeOfTextsIsLost};
ghost use Rattle.program_laws.specs.Laws.{EachProcessOfTextsDecides, ASuspendedRunOfTextsIsDeadlocked};

/// Each variable of a clause that was read is one of the clause's own, and each variable of a goal one of the goal's.
pub fn texts_are_closed()
    ensures programs { AProgramOfATextIsClosed }
    ensures goals { AGoalOfATextIsClosed }
{}

/// Every state that a run comes to is lawful, where the program and the goal were read from texts. So no wake is lost, each
/// process has a decision, and a run that is suspended ends in a deadlock.
pub fn runs_of_texts_are_lawful()
    ensures states { EachStateOfTextsIsLawful }
    ensures wakes { NoWakeOfTextsIsLost }
    ensures decisions { EachProcessOfTextsDecides }
    ensures suspended { ASuspendedRunOfTextsIsDeadlocked }
{}
