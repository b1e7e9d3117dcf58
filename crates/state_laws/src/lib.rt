//! Laws of states and decisions. Each function does nothing: its contract is the law.
#![tactic(auto)]

ghost use Rattle.state_laws.specs.Laws.{ReadsAreUnbound, ADecisionStays, AStartIsLawful, AnEntryKeepsStatesLawful, EveryStateIsLawful, NoWakeIsLost};

/// What is read for a decision is unbound.
pub fn unbound_reads()
    ensures { ReadsAreUnbound }
{}

/// A decision stays until something is bound that was read for it.
pub fn staying_decisions()
    ensures { ADecisionStays }
{}

/// A goal's first state is lawful, and each entry leads from a lawful state to one.
pub fn lawful_states()
    ensures start { AStartIsLawful }
    ensures entry { AnEntryKeepsStatesLawful }
{}

/// Every state that a run comes to is lawful, so no wake is lost.
pub fn lawful_runs()
    ensures states { EveryStateIsLawful }
    ensures wakes { NoWakeIsLost }
{}
