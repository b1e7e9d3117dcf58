//! That what was laid may be written: laws, on functions that do nothing.
ghost use Rattle.page_layout.specs.Plans.{KeptIsFound, ACommitIsPlanned, AHangIsPlanned, ACommitMayFollow, AHangMayFollow};

/// Over words in which an entry finds what it replaces and the tops that were kept, what is laid is a plan of its writes. It finds there
/// what it found among the words that were kept, where the words have these.
pub fn plans()
    ensures found { KeptIsFound }
    ensures commit { ACommitIsPlanned }
    ensures hang { AHangIsPlanned }
{}

/// Over a heap the writes may follow.
pub fn follows()
    ensures commit { ACommitMayFollow }
    ensures hang { AHangMayFollow }
{}
