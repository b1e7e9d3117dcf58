//! The law of answers. The function does nothing: its contract is the law.
#![tactic(auto)]

ghost use Rattle.answer_laws.specs.OneAnswers.{CallsHaveOneAnswer};

/// The words of a call and what the shelf holds leave one answer, where the shelf counts no fault and memory does not run out.
pub fn answers_are_one()
    ensures { CallsHaveOneAnswer }
{}
