//! The value of a stored expression.
ghost use Rattle.std.specs.Prelude.{◌≡◌, IfOk, OnOk};
ghost use Rattle.heap_words.specs.Trails.{Holds, KeepsLoads, Says};
ghost use Rattle.ro_unify.specs.Walks.{Tame};
ghost use Rattle.guard_tests.specs.Opened.{ReadsOpen};
ghost use Rattle.stored_expressions.specs.Storing.{IsEvaluated};

use crate::listing::list;
use fcp_model::NoMemory;
use guard_tests::{Evaluated, TestLists, evaluate};
use heap_words::{ExprStep, Trail, Words};
use std::alloc::Global;

/// The work lists of stored expressions. They keep their memory between calls, so a call takes none where an earlier one had as much
/// to do.
#[derive(Drop)]
pub struct ExpressionLists {
    work: Vec<u64>,
    steps: Vec<ExprStep>,
    tests: TestLists,
}

impl ExpressionLists {
    /// Lists that took no memory yet.
    pub fn make(alloc: Global) -> ExpressionLists {
        ExpressionLists {
            work: Vec::new(alloc),
            steps: Vec::new(alloc),
            tests: TestLists::make(alloc),
        }
    }
}

/// The value of the expression that a word stores, as the definitions evaluate it under the private bindings of the trail. A place
/// that was read unbound goes last on its list, and its word was seen. A word that stores no expression has some answer. After
/// `NoMemory` the trail is only good for `clear`.
pub fn number_of<W: Words>(
    lists: &mut ExpressionLists,
    trail: &mut Trail,
    words: &mut W,
    word: u64,
) -> Result<Evaluated, NoMemory>
    requires sound { W.sound words.old }
    requires holds { Holds W.had W.leads trail.old.kept trail.old.binds words.old }
    requires leads { W.leads words.old word }
    requires tame { Tame trail.old.binds trail.old.kept (W.own words.old) (W.addresses words.old) }
    ensures between { W.later words.old words.new }
    ensures loaded { OnOk result (KeepsLoads W.sound W.had W.leads W.later W.gave trail.old.kept trail.old.binds words.old
        trail.new.kept trail.new.binds words.new) }
    ensures tame { OnOk result (Tame trail.new.binds trail.new.kept (W.own words.new) (W.addresses words.new)) }
    ensures binds { trail.new.binds ≡ trail.old.binds }
    ensures evaluated { IfOk result (λ e. Says (W.own words.new) trail.new.kept
        (λ m. IsEvaluated m trail.old.binds trail.old.reads.items word e trail.new.reads.items)) }
    ensures opened { OnOk result (ReadsOpen trail.old.binds trail.new.kept (W.own words.new) trail.old.reads.items
        trail.new.reads.items) }
{
    list(&mut lists.work, &mut lists.steps, trail, words, word)?;
    let end = evaluate(&mut lists.tests, trail, words, lists.steps.as_slice())?;
    Ok(end)
}
