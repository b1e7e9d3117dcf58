//! The evaluation of steps on words.
ghost use Rattle.std.specs.Prelude.{◌≡◌, ◌++◌, [], ◌∷◌, IfOk, OnOk, false};
ghost use Rattle.heap_words.specs.Trails.{Holds, KeepsLoads, Says};
ghost use Rattle.ro_unify.specs.Occurs.{stack, Each};
ghost use Rattle.ro_unify.specs.Unify.{look_reads};
ghost use Rattle.ro_unify.specs.Value.{look_word, Values};
ghost use Rattle.ro_unify.specs.Walks.{Tame};
ghost use Rattle.guard_tests.specs.Evaluation.{OperandLeads, Gives, Combines, Takes, last_of, Reckons};
ghost use Rattle.guard_tests.specs.Guards.{AreEvaluated};
ghost use Rattle.guard_tests.specs.Opened.{ReadsOpen};

use crate::arithmetic::compute;
use crate::number::{Evaluated, number};
use fcp_model::{ArithOp, NoMemory};
use heap_words::{ExprStep, Trail, Words};
use ro_unify::{Look, deref, note_look};
use std::alloc::Global;

/// The work lists of tests. They keep their memory between calls, so a call takes none where an earlier one had as much to do.
#[derive(Drop)]
pub struct TestLists {
    pub(crate) operands: Vec<i64>,
    pub(crate) pairs: Vec<(u64, u64)>,
}

impl TestLists {
    /// Lists that took no memory yet.
    pub fn make(alloc: Global) -> TestLists {
        TestLists {
            operands: Vec::new(alloc),
            pairs: Vec::new(alloc),
        }
    }
}

/// The value of a word, noted as read where it is an unbound place.
pub(crate) fn read_value<W: Words>(
    trail: &mut Trail,
    words: &mut W,
    word: u64,
) -> Result<Look, NoMemory>
    requires sound { W.sound words.old }
    requires holds { Holds W.had W.leads trail.old.kept trail.old.binds words.old }
    requires leads { W.leads words.old word }
    requires tame { Tame trail.old.binds trail.old.kept (W.own words.old) (W.addresses words.old) }
    ensures between { W.later words.old words.new }
    ensures loaded { OnOk result (KeepsLoads W.sound W.had W.leads W.later W.gave trail.old.kept trail.old.binds words.old
        trail.new.kept trail.new.binds words.new) }
    ensures binds { trail.new.binds ≡ trail.old.binds }
    ensures reads { IfOk result (λ l. trail.new.reads.items ≡ trail.old.reads.items ++ look_reads l) }
    ensures value { IfOk result (λ l. Says (W.own words.new) trail.new.kept (λ m. Values trail.old.binds m false word l)) }
    ensures leads { IfOk result (λ l. W.leads words.new (look_word l)) }
{
    let look = deref(trail, words, word)?;
    note_look(trail, look)?;
    Ok(look)
}

/// What an operand gives.
fn operand<W: Words>(trail: &mut Trail, words: &mut W, word: u64) -> Result<Evaluated, NoMemory>
    requires sound { W.sound words.old }
    requires holds { Holds W.had W.leads trail.old.kept trail.old.binds words.old }
    requires leads { W.leads words.old word }
    requires tame { Tame trail.old.binds trail.old.kept (W.own words.old) (W.addresses words.old) }
    ensures between { W.later words.old words.new }
    ensures loaded { OnOk result (KeepsLoads W.sound W.had W.leads W.later W.gave trail.old.kept trail.old.binds words.old
        trail.new.kept trail.new.binds words.new) }
    ensures binds { trail.new.binds ≡ trail.old.binds }
    ensures gives { IfOk result (λ e. Says (W.own words.new) trail.new.kept
        (λ m. Gives trail.old.binds m word trail.old.reads.items e trail.new.reads.items)) }
{
    let look = read_value(trail, words, word)?;
    let given = number(trail, words, look)?;
    Ok(given)
}

/// What an operator gives for the last two results, which it takes away.
fn combine(operands: &mut Vec<i64>, op: ArithOp) -> Evaluated
    ensures { Combines op (stack operands.old.items) result (stack operands.new.items) }
{
    let Some(right) = operands.pop() else {
        return Evaluated::Bad;
    };
    let Some(left) = operands.pop() else {
        return Evaluated::Bad;
    };
    compute(op, left, right)
}

/// What one step gives.
fn take<W: Words>(
    operands: &mut Vec<i64>,
    trail: &mut Trail,
    words: &mut W,
    step: ExprStep,
) -> Result<Evaluated, NoMemory>
    requires sound { W.sound words.old }
    requires holds { Holds W.had W.leads trail.old.kept trail.old.binds words.old }
    requires leads { OperandLeads (W.leads words.old) step }
    requires tame { Tame trail.old.binds trail.old.kept (W.own words.old) (W.addresses words.old) }
    ensures between { W.later words.old words.new }
    ensures loaded { OnOk result (KeepsLoads W.sound W.had W.leads W.later W.gave trail.old.kept trail.old.binds words.old
        trail.new.kept trail.new.binds words.new) }
    ensures binds { trail.new.binds ≡ trail.old.binds }
    ensures takes { IfOk result (λ e. Says (W.own words.new) trail.new.kept
        (λ m. Takes trail.old.binds m step (stack operands.old.items) trail.old.reads.items e (stack operands.new.items)
        trail.new.reads.items)) }
{
    match step {
        ExprStep::Push(word) => {
            let given = operand(trail, words, word)?;
            Ok(given)
        }
        ExprStep::Apply(op) => Ok(combine(operands, op)),
    }
}

/// Puts a result on top of the others.
fn push(operands: &mut Vec<i64>, number: i64) -> Result<(), NoMemory>
    ensures { OnOk result (operands.new.items ≡ operands.old.items ++ number ∷ []) }
{
    match operands.push(number) {
        Ok(()) => Ok(()),
        Err(_) => Err(NoMemory),
    }
}

/// The last result.
fn last(operands: &mut Vec<i64>) -> Evaluated
    ensures { result ≡ last_of (stack operands.old.items) }
{
    match operands.pop() {
        Some(number) => Evaluated::Value(number),
        None => Evaluated::Bad,
    }
}

/// Evaluates steps from the left. The first one that waits or is bad ends it.
pub(crate) fn reckon<W: Words>(
    operands: &mut Vec<i64>,
    trail: &mut Trail,
    words: &mut W,
    steps: &[ExprStep],
) -> Result<Evaluated, NoMemory>
    requires sound { W.sound words.old }
    requires holds { Holds W.had W.leads trail.old.kept trail.old.binds words.old }
    requires leads { Each (OperandLeads (W.leads words.old)) steps.now }
    requires tame { Tame trail.old.binds trail.old.kept (W.own words.old) (W.addresses words.old) }
    ensures between { W.later words.old words.new }
    ensures loaded { OnOk result (KeepsLoads W.sound W.had W.leads W.later W.gave trail.old.kept trail.old.binds words.old
        trail.new.kept trail.new.binds words.new) }
    ensures binds { trail.new.binds ≡ trail.old.binds }
    ensures reckons { IfOk result (λ e. Says (W.own words.new) trail.new.kept
        (λ m. Reckons trail.old.binds m steps.now [] trail.old.reads.items e trail.new.reads.items)) }
{
    operands.clear();
    for step in steps {
        match take(operands, trail, words, *step)? {
            Evaluated::Value(number) => push(operands, number)?,
            Evaluated::Bad => return Ok(Evaluated::Bad),
            Evaluated::Wait => return Ok(Evaluated::Wait),
        }
    }
    Ok(last(operands))
}

/// Evaluates an expression in postfix order on words, as the definitions evaluate it on the terms for which they stand, under the
/// private bindings of the trail. A place that was read unbound goes last on its list, and its word was seen. Steps that are no
/// expression have some answer. After `NoMemory` the trail is only good for `clear`.
pub fn evaluate<W: Words>(
    lists: &mut TestLists,
    trail: &mut Trail,
    words: &mut W,
    steps: &[ExprStep],
) -> Result<Evaluated, NoMemory>
    requires sound { W.sound words.old }
    requires holds { Holds W.had W.leads trail.old.kept trail.old.binds words.old }
    requires leads { Each (OperandLeads (W.leads words.old)) steps.now }
    requires tame { Tame trail.old.binds trail.old.kept (W.own words.old) (W.addresses words.old) }
    ensures between { W.later words.old words.new }
    ensures loaded { OnOk result (KeepsLoads W.sound W.had W.leads W.later W.gave trail.old.kept trail.old.binds words.old
        trail.new.kept trail.new.binds words.new) }
    ensures tame { OnOk result (Tame trail.new.binds trail.new.kept (W.own words.new) (W.addresses words.new)) }
    ensures binds { trail.new.binds ≡ trail.old.binds }
    ensures evaluated { IfOk result (λ e. Says (W.own words.new) trail.new.kept
        (λ m. AreEvaluated m trail.old.binds trail.old.reads.items steps.now e trail.new.reads.items)) }
    ensures opened { OnOk result (ReadsOpen trail.old.binds trail.new.kept (W.own words.new) trail.old.reads.items
        trail.new.reads.items) }
{
    let end = reckon(&mut lists.operands, trail, words, steps)?;
    Ok(end)
}
