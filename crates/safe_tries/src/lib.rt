//! What is at hand for a try is safe: it leads on, its walks end, and what it binds and reads was unbound. One law for each
//! instruction.
#![tactic(auto)]

ghost use Rattle.safe_tries.specs.Puts.{SafeVariable, SafeConstant, SafePair, SafeTuple, SafeOperation, SafeWide, SafeChild};
ghost use Rattle.safe_tries.specs.Puts.{SafeFirst, SafeReset, SafeTry, SafeCut};
ghost use Rattle.safe_tries.specs.Loads.{SafeMore, SafePairOpened, SafeTupleOpened, SafeUnified, UnificationReads};

/// A slot takes a term.
pub fn puts()
    ensures variable { SafeVariable }
    ensures constant { SafeConstant }
    ensures pair { SafePair }
    ensures tuple { SafeTuple }
    ensures operation { SafeOperation }
    ensures wide { SafeWide }
    ensures child { SafeChild }
{}

/// A variable takes a term at its first occurrence, slots hold the arguments again, and a try begins.
pub fn begins()
    ensures first_ { SafeFirst }
    ensures reset { SafeReset }
    ensures begins { SafeTry }
{}

/// A value is opened, and two slots are unified, over what was loaded; and the pieces that a test put are cut.
pub fn loads()
    ensures more { SafeMore }
    ensures pair { SafePairOpened }
    ensures tuple { SafeTupleOpened }
    ensures unified { SafeUnified }
    ensures reads { UnificationReads }
    ensures cut { SafeCut }
{}
