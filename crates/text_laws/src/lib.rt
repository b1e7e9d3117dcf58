//! Laws of the texts of Flat Concurrent Prolog. Each function does nothing: its contract is the law.
#![tactic(auto)]

ghost use Rattle.text_laws.specs.TextLaws.{SpelledTextsAreCut, WhatIsWrittenIsRead, TermsAreSpelled, ModulesAreSpelled, TermsFit, ModulesFit, TermTextsAreCut, ModuleTextsAreCut, ModuleTextsAreRead};

/// A text is cut into the tokens that were written, where none of its pieces goes on the one before it, and these tokens
/// say what was written.
pub fn spelled_texts_are_cut()
    ensures cut { SpelledTextsAreCut }
    ensures read { WhatIsWrittenIsRead }
{}

/// The pieces of terms and of modules have the canonical texts, and none goes on the one before it.
pub fn canonical_texts_are_spelled()
    ensures terms { TermsAreSpelled }
    ensures modules { ModulesAreSpelled }
    ensures terms_fit { TermsFit }
    ensures modules_fit { ModulesFit }
{}

/// The canonical texts of terms and of modules are cut into the tokens that were written, and a module's tokens say what
/// was written.
pub fn canonical_texts_are_cut()
    ensures terms { TermTextsAreCut }
    ensures modules { ModuleTextsAreCut }
    ensures modules_read { ModuleTextsAreRead }
{}
