//! What unification keeps of a try is what its commit owes.
#![tactic(auto)]

ghost use Rattle.std.specs.Prelude.{ℕ, List};
ghost use Rattle.heap_words.specs.Trails.{Holds, WordList};
ghost use Rattle.ro_unify.specs.Walks.{Tame};
ghost use Rattle.tame_commits.specs.Settled.{IsSettled};
ghost use Rattle.word_states.specs.Tame.{IsTame};

use heap_words::{Trail, Words};

/// Where the two facts of a try hold, the settled bindings and pieces close no cycle. This does nothing: its contract is the law.
pub fn commits_are_tame<W: Words>(trail: &Trail, words: &W)
    requires sound { W.sound words.now }
    requires holds { Holds W.had W.leads trail.now.kept trail.now.binds words.now }
    requires tame { Tame trail.now.binds trail.now.kept (W.own words.now) (W.addresses words.now) }
    ensures { (settled : WordList) (ps : List (List ℕ))
        → IsSettled trail.now.kept trail.now.binds (W.own words.now) settled ps → IsTame trail.now.kept settled ps }
{}
