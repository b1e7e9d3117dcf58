//! What is so of a trial at each instruction: it is safe, and wherever a store stands for bindings it stands for a try of the code's
//! meaning. One law for each instruction.
#![tactic(auto)]

ghost use Rattle.steady_tries.specs.Begins.{SteadyStart, SteadyTry, CourseMore, SteadyMore};
ghost use Rattle.steady_tries.specs.Places.{PlaceListed};
ghost use Rattle.steady_tries.specs.Steps.{SteadyJump, SteadyOtherwise, SteadyVariable, SteadyConstant, SteadyWide, SteadyPair};
ghost use Rattle.steady_tries.specs.Steps.{SteadyTuple, SteadyOperation, SteadySpawn, SteadyFirst};
ghost use Rattle.steady_tries.specs.Opens.{SteadyPairOpened, NoPairStands, SteadyNoPair, SteadyTupleOpened, NoTupleStands};
ghost use Rattle.steady_tries.specs.Opens.{SteadyNoTuple, SteadyUnified, AllNoted, UnifiedReads, SteadyClash, SteadyPause};
ghost use Rattle.steady_tries.specs.Tests.{SteadyHolds, SteadyFails, SteadyWaits, TestedReads, SteadyNotOtherwise};
ghost use Rattle.steady_tries.specs.Ends.{SteadyCommit, BetweenJump, BetweenFail, BetweenWait};

/// A trial and a try begin, and more is kept.
pub fn begins()
    ensures start { SteadyStart }
    ensures begins { SteadyTry }
    ensures course { CourseMore }
    ensures more { SteadyMore }
{}

/// The trial goes on at another position.
pub fn goes()
    ensures jump { SteadyJump }
    ensures otherwise { SteadyOtherwise }
    ensures between { BetweenJump }
{}

/// A slot takes a term, a child is put, or a variable takes a term at its first occurrence.
pub fn puts()
    ensures variable { SteadyVariable }
    ensures constant { SteadyConstant }
    ensures wide { SteadyWide }
    ensures pair { SteadyPair }
    ensures tuple { SteadyTuple }
    ensures operation { SteadyOperation }
    ensures spawn { SteadySpawn }
    ensures first_ { SteadyFirst }
    ensures place { PlaceListed }
{}

/// A value is opened, or goes on to where the term is put.
pub fn opens()
    ensures pair { SteadyPairOpened }
    ensures no_term { NoPairStands }
    ensures no_pair { SteadyNoPair }
    ensures tuple { SteadyTupleOpened }
    ensures no_terms { NoTupleStands }
    ensures no_tuple { SteadyNoTuple }
{}

/// Two slots are unified.
pub fn unifies()
    ensures done { SteadyUnified }
    ensures noted { AllNoted }
    ensures reads { UnifiedReads }
    ensures clash { SteadyClash }
    ensures pause { SteadyPause }
{}

/// A test holds, fails or waits.
pub fn tests()
    ensures holds { SteadyHolds }
    ensures fails { SteadyFails }
    ensures waits { SteadyWaits }
    ensures reads { TestedReads }
    ensures not_otherwise { SteadyNotOtherwise }
{}

/// A trial ends.
pub fn ends()
    ensures commit { SteadyCommit }
    ensures fail { BetweenFail }
    ensures wait { BetweenWait }
{}
