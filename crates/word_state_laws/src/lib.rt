//! What an entry does to words that stand for a state. Each function does nothing: its contract is the law.
#![tactic(auto)]

ghost use Rattle.word_state_laws.specs.OneState.{AStateIsOne};
ghost use Rattle.word_state_laws.specs.Example.{AnExampleStands};
ghost use Rattle.word_state_laws.specs.Laws.{ACommitGoes, AHangGoes, AFailGoes, APlannedCommitIsLaid, APlannedHangIsLaid};

/// What a trial says of a heap that stands for a state goes: the entry is legal, and the words after it stand for the state after it.
pub fn moves()
    ensures commit { ACommitGoes }
    ensures hang { AHangGoes }
    ensures fail { AFailGoes }
{}

/// What is written by a plan, over the words, is the entry laid.
pub fn plans()
    ensures commit { APlannedCommitIsLaid }
    ensures hang { APlannedHangIsLaid }
{}

/// Words stand for one state at most, as far as words can tell.
pub fn one_state()
    ensures { AStateIsOne }
{}

/// A small heap stands for a state: a place with a waiting list, a process that waits on it, and one that is Ready.
pub fn example()
    ensures { AnExampleStands }
{}
