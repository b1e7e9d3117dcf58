//! The law that each goal that is read from a text and loads may be laid into words.
#![tactic(auto)]

ghost use Rattle.layable_goals.specs.Laws.{AGoalOfATextMayBeLaid};

/// A goal that is read from a text and loads may be laid, where the module was read from a text of at most 4294967293 bytes.
pub fn goals_of_texts_may_be_laid()
    ensures { AGoalOfATextMayBeLaid }
{}
