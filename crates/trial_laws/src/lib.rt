//! What a trial has at hand stands for a state of the code's meaning: one law for each instruction.
#![tactic(auto)]

ghost use Rattle.trial_laws.specs.Laws.{LawOfStart, LawOfTry, LawOfLeaving, LawOfJump, LawOfFirst, LawOfClearing, LawOfBase};
ghost use Rattle.trial_laws.specs.Laws.{LawOfVariable, LawOfReadOnly, LawOfConstant};
ghost use Rattle.trial_laws.specs.NewPieces.{LawOfPair, LawOfTuple, LawOfOperation, LawOfWide, LawOfSpawn};
ghost use Rattle.trial_laws.specs.Opening.{LawOfPairOpened, LawOfNoPair, LawOfTupleOpened, LawOfNoTuple};
ghost use Rattle.trial_laws.specs.Unifying.{LawOfUnify, LawOfClash, LawOfPause};
ghost use Rattle.trial_laws.specs.Testing.{LawOfHolds, LawOfFails, LawOfWaits, LawOfOtherwise, LawOfNotOtherwise};
ghost use Rattle.trial_laws.specs.BuiltIns.{LawOfTrue, LawOfEquals, LawOfAssign, LawOfBadAssign, LawOfUnreadyAssign};
ghost use Rattle.trial_laws.specs.Leading.{LedByMore, LedSlot, LedVariable, LedPair, LedTuple, LedOperation, LedWide, LedChild};
ghost use Rattle.trial_laws.specs.Leading.{LedFirst, LedTry, LedLeft, LedUnification, LedCommit, TermsStand};
ghost use Rattle.trial_laws.specs.Endings.{LawOfCommit, LawOfFail, LawOfWait};

/// A trial and a try begin, a try is left, and the slots take the goal's arguments again.
pub fn tries()
    ensures start { LawOfStart }
    ensures begins { LawOfTry }
    ensures leaving { LawOfLeaving }
    ensures clearing { LawOfClearing }
    ensures jump { LawOfJump }
{}

/// A slot takes a term. What was at hand before stays what was at hand before terms were put.
pub fn puts()
    ensures variable { LawOfVariable }
    ensures read_only { LawOfReadOnly }
    ensures constant { LawOfConstant }
    ensures base { LawOfBase }
{}

/// A new piece is put after the others: for a slot, or as a child.
pub fn new_pieces()
    ensures pair { LawOfPair }
    ensures tuple { LawOfTuple }
    ensures operation { LawOfOperation }
    ensures wide { LawOfWide }
    ensures spawn { LawOfSpawn }
{}

/// A variable takes a term at its first occurrence.
pub fn gets()
    ensures first_ { LawOfFirst }
{}

/// A value is opened, or goes on to where the term is put.
pub fn opens()
    ensures pair { LawOfPairOpened }
    ensures no_pair { LawOfNoPair }
    ensures tuple { LawOfTupleOpened }
    ensures no_tuple { LawOfNoTuple }
{}

/// Two slots are unified.
pub fn unifies()
    ensures done { LawOfUnify }
    ensures clash { LawOfClash }
    ensures pause { LawOfPause }
{}

/// A test holds, fails or waits.
pub fn tests()
    ensures holds { LawOfHolds }
    ensures fails { LawOfFails }
    ensures waits { LawOfWaits }
    ensures otherwise { LawOfOtherwise }
    ensures not_otherwise { LawOfNotOtherwise }
{}

/// A trial ends.
pub fn endings()
    ensures commit { LawOfCommit }
    ensures fail { LawOfFail }
    ensures wait { LawOfWait }
{}

/// The built-in processes are decided by code of their own.
pub fn built_ins()
    ensures truth { LawOfTrue }
    ensures equals { LawOfEquals }
    ensures assign { LawOfAssign }
    ensures bad { LawOfBadAssign }
    ensures unready { LawOfUnreadyAssign }
{}

/// What is at hand leads on, whatever the store is.
pub fn leads()
    ensures more { LedByMore }
    ensures slot { LedSlot }
    ensures variable { LedVariable }
    ensures pair { LedPair }
    ensures tuple { LedTuple }
    ensures operation { LedOperation }
    ensures wide { LedWide }
    ensures child { LedChild }
    ensures first_ { LedFirst }
    ensures begins { LedTry }
    ensures leaving { LedLeft }
    ensures unification { LedUnification }
    ensures commit { LedCommit }
    ensures terms { TermsStand }
{}
