//! The tests of a guard on words.
ghost use Rattle.std.specs.Prelude.{◌≡◌, ◌++◌, [], ◌∷◌, IfOk, OnOk};
ghost use Rattle.heap_words.specs.Trails.{Holds, KeepsLoads, Says};
ghost use Rattle.ro_unify.specs.Occurs.{Each};
ghost use Rattle.ro_unify.specs.Walks.{Tame};
ghost use Rattle.guard_tests.specs.Evaluation.{OperandLeads};
ghost use Rattle.guard_tests.specs.Forms.{form_of, IsOfKind, order_with, OrdersAfter, Orders, Tests};
ghost use Rattle.guard_tests.specs.Guards.{AreTested};
ghost use Rattle.guard_tests.specs.Opened.{ReadsOpen};

use crate::arithmetic::is_ordered;
use crate::equality::{Tested, is_equal};
use crate::evaluation::{TestLists, read_value, reckon};
use crate::form::{Form, ValueKind, asked, decided, kind_answer, operand_word, opposed};
use crate::number::Evaluated;
use fcp_model::{CompareOp, NoMemory};
use heap_words::{ExprStep, TestKind, Trail, Words};

/// A test of one operand.
fn test_value<W: Words>(
    trail: &mut Trail,
    words: &mut W,
    kind: ValueKind,
    word: u64,
) -> Result<Tested, NoMemory>
    requires sound { W.sound words.old }
    requires holds { Holds W.had W.leads trail.old.kept trail.old.binds words.old }
    requires leads { W.leads words.old word }
    requires tame { Tame trail.old.binds trail.old.kept (W.own words.old) (W.addresses words.old) }
    ensures between { W.later words.old words.new }
    ensures loaded { OnOk result (KeepsLoads W.sound W.had W.leads W.later W.gave trail.old.kept trail.old.binds words.old
        trail.new.kept trail.new.binds words.new) }
    ensures binds { trail.new.binds ≡ trail.old.binds }
    ensures answer { IfOk result (λ t. Says (W.own words.new) trail.new.kept
        (λ m. IsOfKind trail.old.binds m kind word trail.old.reads.items t trail.new.reads.items)) }
{
    let look = read_value(trail, words, word)?;
    Ok(kind_answer(kind, look))
}

/// The answer for a number on the left and what the right side gave.
fn order_answer(op: CompareOp, left: i64, right: Evaluated) -> Tested
    ensures { order_with op left right ≡ result }
{
    match right {
        Evaluated::Value(right) => decided(is_ordered(op, left, right)),
        Evaluated::Bad => Tested::Not,
        Evaluated::Wait => Tested::Wait,
    }
}

/// Compares what the left side gave with the right side.
fn test_right<W: Words>(
    operands: &mut Vec<i64>,
    trail: &mut Trail,
    words: &mut W,
    op: CompareOp,
    left: Evaluated,
    right: &[ExprStep],
) -> Result<Tested, NoMemory>
    requires sound { W.sound words.old }
    requires holds { Holds W.had W.leads trail.old.kept trail.old.binds words.old }
    requires leads { Each (OperandLeads (W.leads words.old)) right.now }
    requires tame { Tame trail.old.binds trail.old.kept (W.own words.old) (W.addresses words.old) }
    ensures between { W.later words.old words.new }
    ensures loaded { OnOk result (KeepsLoads W.sound W.had W.leads W.later W.gave trail.old.kept trail.old.binds words.old
        trail.new.kept trail.new.binds words.new) }
    ensures binds { trail.new.binds ≡ trail.old.binds }
    ensures orders { IfOk result (λ t. Says (W.own words.new) trail.new.kept
        (λ m. OrdersAfter trail.old.binds m op left right.now trail.old.reads.items t trail.new.reads.items)) }
{
    match left {
        Evaluated::Value(number) => {
            let end = reckon(operands, trail, words, right)?;
            Ok(order_answer(op, number, end))
        }
        Evaluated::Bad => Ok(Tested::Not),
        Evaluated::Wait => Ok(Tested::Wait),
    }
}

/// Compares two expressions.
fn test_order<W: Words>(
    operands: &mut Vec<i64>,
    trail: &mut Trail,
    words: &mut W,
    op: CompareOp,
    left: &[ExprStep],
    right: &[ExprStep],
) -> Result<Tested, NoMemory>
    requires sound { W.sound words.old }
    requires holds { Holds W.had W.leads trail.old.kept trail.old.binds words.old }
    requires left { Each (OperandLeads (W.leads words.old)) left.now }
    requires right { Each (OperandLeads (W.leads words.old)) right.now }
    requires tame { Tame trail.old.binds trail.old.kept (W.own words.old) (W.addresses words.old) }
    ensures between { W.later words.old words.new }
    ensures loaded { OnOk result (KeepsLoads W.sound W.had W.leads W.later W.gave trail.old.kept trail.old.binds words.old
        trail.new.kept trail.new.binds words.new) }
    ensures binds { trail.new.binds ≡ trail.old.binds }
    ensures orders { IfOk result (λ t. Says (W.own words.new) trail.new.kept
        (λ m. Orders trail.old.binds m op left.now right.now trail.old.reads.items t trail.new.reads.items)) }
{
    let first = reckon(operands, trail, words, left)?;
    let answer = test_right(operands, trail, words, op, first, right)?;
    Ok(answer)
}

/// Makes a test.
fn make_test<W: Words>(
    lists: &mut TestLists,
    trail: &mut Trail,
    words: &mut W,
    form: Form,
    left: &[ExprStep],
    right: &[ExprStep],
) -> Result<Tested, NoMemory>
    requires sound { W.sound words.old }
    requires holds { Holds W.had W.leads trail.old.kept trail.old.binds words.old }
    requires left { Each (OperandLeads (W.leads words.old)) left.now }
    requires right { Each (OperandLeads (W.leads words.old)) right.now }
    requires tame { Tame trail.old.binds trail.old.kept (W.own words.old) (W.addresses words.old) }
    ensures between { W.later words.old words.new }
    ensures loaded { OnOk result (KeepsLoads W.sound W.had W.leads W.later W.gave trail.old.kept trail.old.binds words.old
        trail.new.kept trail.new.binds words.new) }
    ensures binds { trail.new.binds ≡ trail.old.binds }
    ensures tests { IfOk result (λ t. Says (W.own words.new) trail.new.kept
        (λ m. Tests trail.old.binds m form left.now right.now trail.old.reads.items t trail.new.reads.items)) }
{
    match form {
        Form::Always => Ok(Tested::Holds),
        Form::OfValue(kind) => {
            let answer = test_value(trail, words, kind, operand_word(left))?;
            Ok(answer)
        }
        Form::Same => {
            let equal = is_equal(
                &mut lists.pairs,
                trail,
                words,
                operand_word(left),
                operand_word(right),
            )?;
            Ok(equal)
        }
        Form::NotSame => {
            let equal = is_equal(
                &mut lists.pairs,
                trail,
                words,
                operand_word(left),
                operand_word(right),
            )?;
            Ok(opposed(equal))
        }
        Form::Order(op) => {
            let answer = test_order(&mut lists.operands, trail, words, op, left, right)?;
            Ok(answer)
        }
    }
}

/// Makes a test on words, as the definitions make it on the terms for which they stand, under the private bindings of the trail.
/// Each place that was read unbound goes last on its list, and its word was seen. Sides that stand for no test of this kind have
/// some answer. After `NoMemory` the trail is only good for `clear`.
pub fn test<W: Words>(
    lists: &mut TestLists,
    trail: &mut Trail,
    words: &mut W,
    kind: TestKind,
    left: &[ExprStep],
    right: &[ExprStep],
) -> Result<Tested, NoMemory>
    requires sound { W.sound words.old }
    requires holds { Holds W.had W.leads trail.old.kept trail.old.binds words.old }
    requires left { Each (OperandLeads (W.leads words.old)) left.now }
    requires right { Each (OperandLeads (W.leads words.old)) right.now }
    requires tame { Tame trail.old.binds trail.old.kept (W.own words.old) (W.addresses words.old) }
    ensures between { W.later words.old words.new }
    ensures loaded { OnOk result (KeepsLoads W.sound W.had W.leads W.later W.gave trail.old.kept trail.old.binds words.old
        trail.new.kept trail.new.binds words.new) }
    ensures tame { OnOk result (Tame trail.new.binds trail.new.kept (W.own words.new) (W.addresses words.new)) }
    ensures binds { trail.new.binds ≡ trail.old.binds }
    ensures tested { IfOk result (λ t. Says (W.own words.new) trail.new.kept
        (λ m. AreTested m trail.old.binds trail.old.reads.items kind left.now right.now t trail.new.reads.items)) }
    ensures opened { OnOk result (ReadsOpen trail.old.binds trail.new.kept (W.own words.new) trail.old.reads.items
        trail.new.reads.items) }
{
    let form = asked(kind);
    let answer = make_test(lists, trail, words, form, left, right)?;
    Ok(answer)
}
