//! The writes of a commit and of a hang keep the words a heap. Each function does nothing: its contract is the law.
#![tactic(auto)]

ghost use Rattle.sound_entries.specs.Laws.{ACommitIsSound, AHangIsSound};

/// The writes of a commit are sound by what was read.
pub fn sound_commits()
    ensures { ACommitIsSound }
{}

/// And so are those of a hang.
pub fn sound_hangs()
    ensures { AHangIsSound }
{}
