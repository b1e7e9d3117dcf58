//! Laws of the transitions of Flat Concurrent Prolog: which entries a run may make next, and what the commits and fails of a
//! run are as reductions and failures of goals. Each function does nothing: its contract is the law.
#![tactic(auto)]

ghost use Rattle.transition_laws.specs.Laws.{ANextEntryIsAllowedAndDecided, AnEventIsOfItsEntry, ACommitIsAReduction, AFailIsAFailure};
ghost use Rattle.transition_laws.specs.Laws.{AnEntryIsATransition, AStartIsTheGoal, ARunComputes, AFailIsLast, AProcessCommitsOnce};
ghost use Rattle.transition_laws.specs.Laws.{ATerminatedRunIsDone, AFailedRunFails, ASuspendedRunIsDeadlocked};

/// A run's next entry is one that it allows and that is decided.
pub fn next_entries()
    ensures allowed { ANextEntryIsAllowedAndDecided }
    ensures event { AnEventIsOfItsEntry }
{}

/// A goal reduces where a commit is decided for it, and fails where a fail is decided.
pub fn decided_goals()
    ensures reduction { ACommitIsAReduction }
    ensures failure { AFailIsAFailure }
{}

/// A commit reduces a goal, a fail fails at one, and every other entry leaves the goals and the bindings as they are.
pub fn transitions()
    ensures start { AStartIsTheGoal }
    ensures entry { AnEntryIsATransition }
{}

/// A run is a computation by reductions, in which a process commits once, and a fail is last.
pub fn computations()
    ensures reductions { ARunComputes }
    ensures fail { AFailIsLast }
    ensures commit { AProcessCommitsOnce }
{}

/// What the last configuration of a run is, by its outcome.
pub fn last_configurations()
    ensures terminated { ATerminatedRunIsDone }
    ensures failed { AFailedRunFails }
    ensures suspended { ASuspendedRunIsDeadlocked }
{}
