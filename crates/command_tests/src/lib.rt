//! Tests of `command_words` and `control_texts`, by their public calls.
#![tactic(auto)]

#[cfg(test)]
mod controls;
#[cfg(test)]
mod words;
