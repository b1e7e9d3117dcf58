//! What words say: terms, goals, a state of a run, what a trial finds, and what an entry does to them.
#![tactic(auto)]
