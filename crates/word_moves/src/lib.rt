//! Moves of processes in words: an entry with what it read and what it writes. The functions do nothing: their contracts are the laws by
//! which a move that was planned is legal and sound.
#![tactic(auto)]

ghost use Rattle.word_moves.specs.Laws.{ACommitFits, AHangFits, AFailFits, ACommitIsSafe, AHangIsSafe, AFailIsSafe};

mod word_move;

pub use word_move::WordMove;

/// A move that is planned by what was read and decided is legal over every heap that has what was read, and tells what it does.
pub fn fits()
    ensures commit { ACommitFits }
    ensures hang { AHangFits }
    ensures fail { AFailFits }
{}

/// Its writes may follow there, and are sound by what was read.
pub fn safe()
    ensures commit { ACommitIsSafe }
    ensures hang { AHangIsSafe }
    ensures fail { AFailIsSafe }
{}
