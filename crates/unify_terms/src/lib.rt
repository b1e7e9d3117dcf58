//! The unification of words as that of the terms for which they stand.
#![tactic(auto)]

ghost use Rattle.std.specs.Prelude.{◌≡◌, ◌++◌, IfOk, OnOk};
ghost use Rattle.heap_words.specs.Trails.{Holds, KeepsLoads, Says};
ghost use Rattle.ro_unify.specs.Occurs.{Each};
ghost use Rattle.ro_unify.specs.Alike.{Both};
ghost use Rattle.ro_unify.specs.Unify.{ending};
ghost use Rattle.ro_unify.specs.Walks.{Tame};
ghost use Rattle.unify_terms.specs.Denotes.{AreUnified};
ghost use Rattle.unify_terms.specs.WordsOfTries.{AStateIsSeen, ATryIsNamed, AllIsSeen, AllIsSaid};

use fcp_model::NoMemory;
use heap_words::{Trail, Words};
use ro_unify::{Unified, WorkLists, unify};

/// Unifies pairs of words from the left, as the definitions unify the terms for which they stand. All else is as `unify` says.
pub fn unify_words<W: Words>(
    lists: &mut WorkLists,
    trail: &mut Trail,
    words: &mut W,
    pairs: &[(u64, u64)],
) -> Result<Unified, NoMemory>
    requires sound { W.sound words.old }
    requires holds { Holds W.had W.leads trail.old.kept trail.old.binds words.old }
    requires leads { Each (Both (W.leads words.old)) pairs.now }
    requires tame { Tame trail.old.binds trail.old.kept (W.own words.old) (W.addresses words.old) }
    ensures between { W.later words.old words.new }
    ensures loaded { OnOk result (KeepsLoads W.sound W.had W.leads W.later W.gave trail.old.kept trail.old.binds words.old
        trail.new.kept trail.new.binds words.new) }
    ensures tame { OnOk result (Tame trail.new.binds trail.new.kept (W.own words.new) (W.addresses words.new)) }
    ensures unified { IfOk result (λ d. Says (W.own words.new) trail.new.kept
        (λ m. AreUnified m trail.old.binds trail.old.reads.items pairs.now (ending d trail.new.binds trail.new.reads.items))) }
{
    let end = unify(lists, trail, words, pairs)?;
    Ok(end)
}

/// What unification sees of the words of a state or of a try is what they say. This does nothing: its contract is the law.
pub fn words_of_tries()
    ensures state { AStateIsSeen }
    ensures tries { ATryIsNamed }
    ensures seen { AllIsSeen }
    ensures said { AllIsSaid }
{}
