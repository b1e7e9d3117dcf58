//! A safe try beside its store: what a call over both may ask, what it leaves, and where a trial starts and ends.
#![tactic(auto)]

ghost use Rattle.stored_tries.specs.Agreement.{TriedAgrees, SeenAgrees};
ghost use Rattle.stored_tries.specs.Calls.{StandsBeside, AfterBeside, AfterLoads, AfterFirstLoads};
ghost use Rattle.stored_tries.specs.Ends.{SafeCommit, SafeWait};
ghost use Rattle.stored_tries.specs.Starts.{SafeStart};

use heap_words::Words;

/// A safe try may make calls over its store and its own words. This does nothing: its contract is the law.
pub fn stands_beside<W: Words>(_words: &W)
    ensures { StandsBeside W.addresses W.sound W.knows W.had W.leads W.shown W.later }
{}

/// After such a call, and after loads from the store alone, more was kept, and what was safe is safe. This does nothing.
pub fn after_beside<W: Words>(_words: &W)
    ensures beside { AfterBeside W.addresses W.sound W.knows W.had W.leads W.shown W.later W.gave }
    ensures alone { AfterLoads W.addresses W.sound W.knows W.had W.leads W.shown W.later W.gave }
    ensures first_ { AfterFirstLoads W.addresses W.sound W.knows W.had W.leads W.shown W.later W.gave }
{}

/// What is at hand when a trial starts is safe. This does nothing.
pub fn safe_start<W: Words>(_words: &W)
    ensures { SafeStart W.addresses W.sound W.had W.shown W.later }
{}

/// Words of a store that a trial read, and what it saw, have what it kept. This does nothing.
pub fn tried_agrees()
    ensures tried { TriedAgrees }
    ensures seen { SeenAgrees }
{}

/// What a safe try hands over at a commit is sound by what it read. This does nothing.
pub fn safe_commit<W: Words>(_words: &W)
    ensures { SafeCommit W.addresses W.sound W.had W.shown W.later }
{}

/// And so are the places for which it waits. This does nothing.
pub fn safe_wait()
    ensures { SafeWait }
{}
