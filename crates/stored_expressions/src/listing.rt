//! The steps of a stored expression, in postfix order.
ghost use Rattle.std.specs.Prelude.{◌≡◌, ◌+◌, ◌++◌, [], ◌∷◌, IfOk, OnOk};
ghost use Rattle.heap_words.specs.Trails.{Holds, KeepsLoads, Says};
ghost use Rattle.ro_unify.specs.Occurs.{stack, Each};
ghost use Rattle.ro_unify.specs.Walks.{Tame};
ghost use Rattle.guard_tests.specs.Evaluation.{OperandLeads};
ghost use Rattle.stored_expressions.specs.Listing.{Visits, Lists};

use crate::operators::operation;
use fcp_model::NoMemory;
use heap_words::{ExprStep, Trail, Words};

/// Puts a word on top of the work list.
fn push(work: &mut Vec<u64>, word: u64) -> Result<(), NoMemory>
    ensures { OnOk result (work.new.items ≡ work.old.items ++ word ∷ []) }
{
    match work.push(word) {
        Ok(()) => Ok(()),
        Err(_) => Err(NoMemory),
    }
}

/// Puts a step last.
fn add(steps: &mut Vec<ExprStep>, step: ExprStep) -> Result<(), NoMemory>
    ensures { OnOk result (steps.new.items ≡ steps.old.items ++ step ∷ []) }
{
    match steps.push(step) {
        Ok(()) => Ok(()),
        Err(_) => Err(NoMemory),
    }
}

/// Puts the two words after an address on the work list, the right one on top.
fn push_operands<W: Words>(
    trail: &mut Trail,
    words: &mut W,
    work: &mut Vec<u64>,
    at: u32,
) -> Result<(), NoMemory>
    requires sound { W.sound words.old }
    requires holds { Holds W.had W.leads trail.old.kept trail.old.binds words.old }
    requires known { (W.knows words.old (at + 1)) × (W.knows words.old (at + 2)) }
    ensures between { W.later words.old words.new }
    ensures loaded { OnOk result (KeepsLoads W.sound W.had W.leads W.later W.gave trail.old.kept trail.old.binds words.old
        trail.new.kept trail.new.binds words.new) }
    ensures binds { trail.new.binds ≡ trail.old.binds }
    ensures reads { trail.new.reads.items ≡ trail.old.reads.items }
    ensures work { OnOk result (Says (W.own words.new) trail.new.kept
        (λ m. stack work.new.items ≡ m (at + 2) ∷ m (at + 1) ∷ stack work.old.items)) }
    ensures leads { OnOk result (Each (W.leads words.old) (stack work.old.items) → Each (W.leads words.new) (stack work.new.items)) }
{
    let left = trail.word(words, at + 1)?;
    push(work, left)?;
    let right = trail.word(words, at + 2)?;
    push(work, right)?;
    Ok(())
}

/// The step of a word. The operands of an operation come next, from the right.
fn visit<W: Words>(
    trail: &mut Trail,
    words: &mut W,
    work: &mut Vec<u64>,
    next: u64,
) -> Result<ExprStep, NoMemory>
    requires sound { W.sound words.old }
    requires holds { Holds W.had W.leads trail.old.kept trail.old.binds words.old }
    requires leads { W.leads words.old next }
    ensures between { W.later words.old words.new }
    ensures loaded { OnOk result (KeepsLoads W.sound W.had W.leads W.later W.gave trail.old.kept trail.old.binds words.old
        trail.new.kept trail.new.binds words.new) }
    ensures binds { trail.new.binds ≡ trail.old.binds }
    ensures reads { trail.new.reads.items ≡ trail.old.reads.items }
    ensures visits { IfOk result (λ s. Says (W.own words.new) trail.new.kept
        (λ m. Visits m next (stack work.old.items) s (stack work.new.items))) }
    ensures step_leads { IfOk result (OperandLeads (W.leads words.new)) }
    ensures leads { OnOk result (Each (W.leads words.old) (stack work.old.items) → Each (W.leads words.new) (stack work.new.items)) }
{
    match operation(trail, words, next)? {
        None => Ok(ExprStep::Push(next)),
        Some((op, at)) => {
            push_operands(trail, words, work, at)?;
            Ok(ExprStep::Apply(op))
        }
    }
}

/// Lists the steps of the words on the work list from its top, each operator before its operands.
fn list_all<W: Words>(
    work: &mut Vec<u64>,
    steps: &mut Vec<ExprStep>,
    trail: &mut Trail,
    words: &mut W,
) -> Result<(), NoMemory>
    requires sound { W.sound words.old }
    requires holds { Holds W.had W.leads trail.old.kept trail.old.binds words.old }
    requires leads { Each (W.leads words.old) (stack work.old.items) }
    requires steps_lead { Each (OperandLeads (W.leads words.old)) (stack steps.old.items) }
    requires tame { Tame trail.old.binds trail.old.kept (W.own words.old) (W.addresses words.old) }
    ensures between { W.later words.old words.new }
    ensures loaded { OnOk result (KeepsLoads W.sound W.had W.leads W.later W.gave trail.old.kept trail.old.binds words.old
        trail.new.kept trail.new.binds words.new) }
    ensures binds { trail.new.binds ≡ trail.old.binds }
    ensures reads { trail.new.reads.items ≡ trail.old.reads.items }
    ensures lists { OnOk result (Says (W.own words.new) trail.new.kept
        (λ m. Lists m (stack work.old.items) (stack steps.old.items) (stack steps.new.items))) }
    ensures steps_lead { OnOk result (Each (OperandLeads (W.leads words.new)) (stack steps.new.items)) }
{
    'walk: loop {
        let Some(next) = work.pop() else {
            return Ok(());
        };
        let step = visit(trail, words, work, next)?;
        add(steps, step)?;
    }
}

/// Lists the steps of the expression that a word stores, in postfix order.
pub(crate) fn list<W: Words>(
    work: &mut Vec<u64>,
    steps: &mut Vec<ExprStep>,
    trail: &mut Trail,
    words: &mut W,
    word: u64,
) -> Result<(), NoMemory>
    requires sound { W.sound words.old }
    requires holds { Holds W.had W.leads trail.old.kept trail.old.binds words.old }
    requires leads { W.leads words.old word }
    requires tame { Tame trail.old.binds trail.old.kept (W.own words.old) (W.addresses words.old) }
    ensures between { W.later words.old words.new }
    ensures loaded { OnOk result (KeepsLoads W.sound W.had W.leads W.later W.gave trail.old.kept trail.old.binds words.old
        trail.new.kept trail.new.binds words.new) }
    ensures binds { trail.new.binds ≡ trail.old.binds }
    ensures reads { trail.new.reads.items ≡ trail.old.reads.items }
    ensures lists { OnOk result (Says (W.own words.new) trail.new.kept (λ m. Lists m (word ∷ []) [] steps.new.items)) }
    ensures steps_lead { OnOk result (Each (OperandLeads (W.leads words.new)) steps.new.items) }
{
    work.clear();
    steps.clear();
    push(work, word)?;
    list_all(work, steps, trail, words)?;
    steps.reverse();
    Ok(())
}
