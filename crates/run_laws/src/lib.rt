//! What a ruling makes of where the run of one worker stands, by words that stand for its state. Each function does nothing: its
//! contract is the law.
#![tactic(auto)]

ghost use Rattle.run_laws.specs.Laws.{AFoundMoveMayGo, AFoundMoveGoesOn, AnEventIsOfTheFront, AFrontCosts, ACommitLeadsOn, AHangLeadsOn, APassLeadsOn, AControlLeadsOn, AFailEnds, AnEndEnds, ABeginningStands, AnOutcomeIsCounted, AFrontIsReady, PlacesAreInUse, ProcessesAreInUse};

/// A move of the front that found what it read may go, and its event is the one that is decided for the front. Its cells can be told before
/// it is planned.
pub fn front_moves()
    ensures may { AFoundMoveMayGo }
    ensures goes { AFoundMoveGoesOn }
    ensures event { AnEventIsOfTheFront }
    ensures costs { AFrontCosts }
{}

/// A commit, a hang, a pass and a control lead to where the run stands again.
pub fn leading_moves()
    ensures commit { ACommitLeadsOn }
    ensures hang { AHangLeadsOn }
    ensures pass { APassLeadsOn }
    ensures control { AControlLeadsOn }
{}

/// The run ends with a fail of the front, and where nothing more is made of it.
pub fn ends()
    ensures fail { AFailEnds }
    ensures end { AnEndEnds }
{}

/// Where a run begins, and the outcome with which it ends.
pub fn counts()
    ensures first { ABeginningStands }
    ensures outcome { AnOutcomeIsCounted }
{}

/// Words in use, where words stand for a state.
pub fn words_in_use()
    ensures front { AFrontIsReady }
    ensures places { PlacesAreInUse }
    ensures processes { ProcessesAreInUse }
{}
