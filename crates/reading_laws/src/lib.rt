//! The law of canonical texts. The function does nothing: its contract is the law.
#![tactic(auto)]

ghost use Rattle.reading_laws.specs.CanonicalReading.{CanonicalTextsAreRead};

/// The canonical text of a module that was read and has no fault is a module again, which says the same, with strings
/// compared as texts and places apart, where no bracket of it has 256 open ones around it.
pub fn canonical_texts_are_read()
    ensures { CanonicalTextsAreRead }
{}
