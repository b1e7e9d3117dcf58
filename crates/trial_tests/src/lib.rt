//! The tests of a try, made on the words of its slots, are those of the code's meaning.
#![tactic(auto)]

ghost use Rattle.trial_tests.specs.Tested.{LawOfTested};

/// A test on the words of slots gives what the test of the code gives. This does nothing: its contract is the law.
pub fn tested()
    ensures { LawOfTested }
{}
