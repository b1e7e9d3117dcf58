//! The tests and expressions of guards.
use crate::words::{
    A, B, NIL, OF_A, OF_B, OF_BOUND, PAIR_140, PAIR_142, PAIR_144, PAIR_146, PAIR_148, RO_A, RO_B,
    RO_PAIR, SMALL_0, SMALL_1, SMALL_2, SMALL_5, SMALL_6, SMALL_7, SMALL_M1, SMALL_M2, SMALL_M7,
    STRING_5, STRING_9, TUPLE_128, TUPLE_384, TUPLE_640, WIDE_150_1, WIDE_151_1, WIDE_151_2,
    WIDE_152_1, WIDE_LEAST, WIDE_MOST, reads, sheet,
};
use fcp_model::{ArithOp, NoMemory};
use guard_tests::{Evaluated, TestLists, Tested, evaluate, test};
use heap_words::{ExprStep, TestKind, Trail, Words};
use std::alloc::Global;
use std::test::Fail;

/// A test of the word at an address, with nothing bound before.
fn test_at<W: Words>(
    alloc: Global,
    lists: &mut TestLists,
    words: &mut W,
    kind: TestKind,
    at: u32,
) -> Result<(Tested, Trail), NoMemory>
    requires sound { W.sound words.old }
    requires known { W.knows words.old at }
{
    let mut trail = Trail::make(alloc)?;
    let word = words.load(at);
    let end = test(
        lists,
        &mut trail,
        words,
        kind,
        [ExprStep::Push(word)].as_slice(),
        [].as_slice(),
    )?;
    Ok((end, trail))
}

/// A test of the words at two addresses, with nothing bound before.
pub(crate) fn test_both<W: Words>(
    alloc: Global,
    lists: &mut TestLists,
    words: &mut W,
    kind: TestKind,
    first: u32,
    second: u32,
) -> Result<(Tested, Trail), NoMemory>
    requires sound { W.sound words.old }
    requires known { W.knows words.old first }
    requires also { W.knows words.old second }
{
    let mut trail = Trail::make(alloc)?;
    let left = words.load(first);
    let right = words.load(second);
    let end = test(
        lists,
        &mut trail,
        words,
        kind,
        [ExprStep::Push(left)].as_slice(),
        [ExprStep::Push(right)].as_slice(),
    )?;
    Ok((end, trail))
}

/// The value of an operator with the words at two addresses, with nothing bound before.
fn evaluate_both<W: Words>(
    alloc: Global,
    lists: &mut TestLists,
    words: &mut W,
    op: ArithOp,
    first: u32,
    second: u32,
) -> Result<(Evaluated, Trail), NoMemory>
    requires sound { W.sound words.old }
    requires known { W.knows words.old first }
    requires also { W.knows words.old second }
{
    let mut trail = Trail::make(alloc)?;
    let left = words.load(first);
    let right = words.load(second);
    let end = evaluate(
        lists,
        &mut trail,
        words,
        [
            ExprStep::Push(left),
            ExprStep::Push(right),
            ExprStep::Apply(op),
        ]
        .as_slice(),
    )?;
    Ok((end, trail))
}

/// A test of one word.
fn is_of_kind(
    alloc: Global,
    kind: TestKind,
    word: u64,
    answer: Tested,
    read: u32,
) -> Result<bool, NoMemory> {
    let mut lists = TestLists::make(alloc);
    let mut sheet = sheet(alloc)?;
    let at = sheet.put(word)?;
    let (found, trail) = test_at(alloc, &mut lists, &mut sheet, kind, at)?;
    Ok(found == answer && reads(&trail) == [read, 0, 0, 0])
}

/// The first kind whose answer for a word is another one.
fn first_wrong_kind(alloc: Global) -> Result<Option<(TestKind, u64)>, NoMemory> {
    for (kind, word, answer, read) in [
        (TestKind::Integer, SMALL_5, Tested::Holds, 0),
        (TestKind::Integer, WIDE_LEAST, Tested::Holds, 0),
        (TestKind::Integer, STRING_5, Tested::Not, 0),
        (TestKind::Integer, OF_A, Tested::Wait, A),
        (TestKind::Integer, RO_A, Tested::Wait, A),
        (TestKind::String, STRING_5, Tested::Holds, 0),
        (TestKind::String, NIL, Tested::Not, 0),
        (TestKind::String, OF_A, Tested::Wait, A),
        (TestKind::String, RO_A, Tested::Wait, A),
        (TestKind::Constant, SMALL_5, Tested::Holds, 0),
        (TestKind::Constant, WIDE_MOST, Tested::Holds, 0),
        (TestKind::Constant, STRING_5, Tested::Holds, 0),
        (TestKind::Constant, NIL, Tested::Holds, 0),
        (TestKind::Constant, PAIR_140, Tested::Not, 0),
        (TestKind::Constant, OF_A, Tested::Wait, A),
        (TestKind::Constant, RO_A, Tested::Wait, A),
        (TestKind::List, PAIR_140, Tested::Holds, 0),
        (TestKind::List, RO_PAIR, Tested::Holds, 0),
        (TestKind::List, NIL, Tested::Not, 0),
        (TestKind::List, TUPLE_128, Tested::Not, 0),
        (TestKind::List, OF_A, Tested::Wait, A),
        (TestKind::List, RO_A, Tested::Wait, A),
        (TestKind::Tuple, TUPLE_128, Tested::Holds, 0),
        (TestKind::Tuple, PAIR_140, Tested::Not, 0),
        (TestKind::Tuple, OF_A, Tested::Wait, A),
        (TestKind::Tuple, RO_A, Tested::Wait, A),
        (TestKind::Known, SMALL_5, Tested::Holds, 0),
        (TestKind::Known, PAIR_140, Tested::Holds, 0),
        (TestKind::Known, OF_A, Tested::Wait, A),
        (TestKind::Known, RO_A, Tested::Wait, A),
        (TestKind::Unknown, SMALL_5, Tested::Not, 0),
        (TestKind::Unknown, RO_PAIR, Tested::Not, 0),
        (TestKind::Unknown, OF_A, Tested::Holds, A),
        (TestKind::Unknown, RO_A, Tested::Holds, A),
        (TestKind::Unknown, OF_BOUND, Tested::Holds, A),
    ] {
        if !is_of_kind(alloc, kind, word, answer, read)? {
            return Ok(Some((kind, word)));
        }
    }
    Ok(None)
}

/// A test of two words.
fn is_answer(
    alloc: Global,
    kind: TestKind,
    left: u64,
    right: u64,
    answer: Tested,
    read: [u32; 4],
) -> Result<bool, NoMemory> {
    let mut lists = TestLists::make(alloc);
    let mut sheet = sheet(alloc)?;
    let first = sheet.put(left)?;
    let second = sheet.put(right)?;
    let (found, trail) = test_both(alloc, &mut lists, &mut sheet, kind, first, second)?;
    Ok(found == answer && reads(&trail) == read)
}

fn opposite(answer: Tested) -> Tested {
    match answer {
        Tested::Holds => Tested::Not,
        Tested::Not => Tested::Holds,
        Tested::Wait => Tested::Wait,
    }
}

/// The first two words for which `==` or `\==` has another answer.
fn first_wrong_equality(alloc: Global) -> Result<Option<(u64, u64)>, NoMemory> {
    for (left, right, answer, read) in [
        (SMALL_5, SMALL_5, Tested::Holds, [0, 0, 0, 0]),
        (SMALL_5, SMALL_6, Tested::Not, [0, 0, 0, 0]),
        (SMALL_5, STRING_5, Tested::Not, [0, 0, 0, 0]),
        (STRING_9, STRING_9, Tested::Holds, [0, 0, 0, 0]),
        (NIL, NIL, Tested::Holds, [0, 0, 0, 0]),
        (NIL, PAIR_140, Tested::Not, [0, 0, 0, 0]),
        (WIDE_150_1, WIDE_151_1, Tested::Holds, [0, 0, 0, 0]),
        (WIDE_150_1, WIDE_152_1, Tested::Not, [0, 0, 0, 0]),
        (WIDE_150_1, WIDE_151_2, Tested::Not, [0, 0, 0, 0]),
        (OF_A, OF_A, Tested::Holds, [A, A, 0, 0]),
        (OF_A, RO_A, Tested::Holds, [A, A, 0, 0]),
        (RO_A, OF_A, Tested::Holds, [A, A, 0, 0]),
        (RO_A, RO_A, Tested::Holds, [A, A, 0, 0]),
        (OF_A, OF_B, Tested::Wait, [A, B, 0, 0]),
        (RO_B, OF_A, Tested::Wait, [B, A, 0, 0]),
        (OF_A, SMALL_7, Tested::Wait, [A, 0, 0, 0]),
        (SMALL_7, RO_A, Tested::Wait, [A, 0, 0, 0]),
        (OF_BOUND, OF_A, Tested::Holds, [A, A, 0, 0]),
        (RO_PAIR, PAIR_140, Tested::Holds, [A, A, 0, 0]),
        // parts from the left, up to the first difference or wait
        (PAIR_140, PAIR_144, Tested::Holds, [A, A, 0, 0]),
        (PAIR_140, PAIR_142, Tested::Wait, [A, B, 0, 0]),
        (PAIR_146, PAIR_148, Tested::Not, [0, 0, 0, 0]),
        (PAIR_140, TUPLE_128, Tested::Not, [0, 0, 0, 0]),
        (TUPLE_128, TUPLE_640, Tested::Wait, [A, B, 0, 0]),
        (TUPLE_640, TUPLE_640, Tested::Holds, [B, B, 0, 0]),
        (TUPLE_128, TUPLE_384, Tested::Not, [0, 0, 0, 0]),
    ] {
        if !is_answer(alloc, TestKind::Same, left, right, answer, read)? {
            return Ok(Some((left, right)));
        }
        if !is_answer(
            alloc,
            TestKind::NotSame,
            left,
            right,
            opposite(answer),
            read,
        )? {
            return Ok(Some((left, right)));
        }
    }
    Ok(None)
}

/// The first comparison of two numbers with another answer.
fn first_wrong_order(alloc: Global) -> Result<Option<(TestKind, u64, u64)>, NoMemory> {
    for (kind, left, right, answer, read) in [
        (TestKind::Less, SMALL_5, SMALL_6, Tested::Holds, 0),
        (TestKind::Less, SMALL_5, SMALL_5, Tested::Not, 0),
        (TestKind::Less, WIDE_LEAST, WIDE_MOST, Tested::Holds, 0),
        (TestKind::AtMost, SMALL_5, SMALL_5, Tested::Holds, 0),
        (TestKind::AtMost, SMALL_6, SMALL_5, Tested::Not, 0),
        (TestKind::Greater, SMALL_6, SMALL_5, Tested::Holds, 0),
        (TestKind::Greater, SMALL_5, SMALL_5, Tested::Not, 0),
        (TestKind::AtLeast, SMALL_5, SMALL_5, Tested::Holds, 0),
        (TestKind::AtLeast, SMALL_M1, SMALL_0, Tested::Not, 0),
        (TestKind::Equal, WIDE_150_1, WIDE_151_1, Tested::Holds, 0),
        (TestKind::Equal, SMALL_5, SMALL_6, Tested::Not, 0),
        (TestKind::NotEqual, SMALL_5, SMALL_6, Tested::Holds, 0),
        (TestKind::NotEqual, SMALL_5, SMALL_5, Tested::Not, 0),
        // the first side that waits or is bad decides
        (TestKind::Less, OF_A, SMALL_5, Tested::Wait, A),
        (TestKind::Less, RO_A, OF_B, Tested::Wait, A),
        (TestKind::Less, SMALL_5, RO_A, Tested::Wait, A),
        (TestKind::Less, OF_A, STRING_5, Tested::Wait, A),
        (TestKind::NotEqual, STRING_5, OF_A, Tested::Not, 0),
        (TestKind::NotEqual, SMALL_5, NIL, Tested::Not, 0),
    ] {
        if !is_answer(alloc, kind, left, right, answer, [read, 0, 0, 0])? {
            return Ok(Some((kind, left, right)));
        }
    }
    Ok(None)
}

/// The value of an operator with two words.
fn is_value(
    alloc: Global,
    op: ArithOp,
    left: u64,
    right: u64,
    answer: Evaluated,
    read: u32,
) -> Result<bool, NoMemory> {
    let mut lists = TestLists::make(alloc);
    let mut sheet = sheet(alloc)?;
    let first = sheet.put(left)?;
    let second = sheet.put(right)?;
    let (found, trail) = evaluate_both(alloc, &mut lists, &mut sheet, op, first, second)?;
    Ok(found == answer && reads(&trail) == [read, 0, 0, 0])
}

/// The first expression with another value.
fn first_wrong_value(alloc: Global) -> Result<Option<(ArithOp, u64, u64)>, NoMemory> {
    for (op, left, right, answer, read) in [
        (ArithOp::Add, SMALL_5, SMALL_6, Evaluated::Value(11), 0),
        (ArithOp::Add, WIDE_MOST, WIDE_LEAST, Evaluated::Value(-1), 0),
        (
            ArithOp::Add,
            WIDE_150_1,
            SMALL_1,
            Evaluated::Value(72057594037927938),
            0,
        ),
        (ArithOp::Add, WIDE_MOST, SMALL_1, Evaluated::Bad, 0),
        (ArithOp::Sub, SMALL_5, SMALL_6, Evaluated::Value(-1), 0),
        (ArithOp::Sub, WIDE_LEAST, SMALL_1, Evaluated::Bad, 0),
        (ArithOp::Mul, SMALL_M7, SMALL_2, Evaluated::Value(-14), 0),
        (
            ArithOp::Mul,
            WIDE_MOST,
            SMALL_M1,
            Evaluated::Value(-9223372036854775807),
            0,
        ),
        (ArithOp::Mul, WIDE_LEAST, SMALL_M1, Evaluated::Bad, 0),
        (ArithOp::Mul, WIDE_MOST, WIDE_MOST, Evaluated::Bad, 0),
        (ArithOp::Div, SMALL_7, SMALL_2, Evaluated::Value(3), 0),
        (ArithOp::Div, SMALL_M7, SMALL_2, Evaluated::Value(-3), 0),
        (ArithOp::Div, SMALL_7, SMALL_M2, Evaluated::Value(-3), 0),
        (ArithOp::Div, WIDE_LEAST, SMALL_M1, Evaluated::Bad, 0),
        (ArithOp::Div, SMALL_7, SMALL_0, Evaluated::Bad, 0),
        (ArithOp::Mod, SMALL_7, SMALL_2, Evaluated::Value(1), 0),
        (ArithOp::Mod, SMALL_M7, SMALL_2, Evaluated::Value(-1), 0),
        (ArithOp::Mod, SMALL_7, SMALL_M2, Evaluated::Value(1), 0),
        (ArithOp::Mod, WIDE_LEAST, SMALL_M1, Evaluated::Value(0), 0),
        (ArithOp::Mod, SMALL_7, SMALL_0, Evaluated::Bad, 0),
        // the first operand that waits or is bad decides
        (ArithOp::Add, OF_A, SMALL_1, Evaluated::Wait, A),
        (ArithOp::Add, SMALL_1, RO_A, Evaluated::Wait, A),
        (ArithOp::Add, OF_A, OF_B, Evaluated::Wait, A),
        (ArithOp::Add, OF_A, STRING_5, Evaluated::Wait, A),
        (ArithOp::Add, STRING_5, OF_A, Evaluated::Bad, 0),
        (ArithOp::Add, SMALL_1, NIL, Evaluated::Bad, 0),
    ] {
        if !is_value(alloc, op, left, right, answer, read)? {
            return Ok(Some((op, left, right)));
        }
    }
    Ok(None)
}

#[test]
fn each_kind_of_value(rt: HostRuntime) -> Result<(), Fail> {
    assert_eq!(rt; first_wrong_kind(rt.alloc())?, None);
    Ok(())
}

#[test]
fn each_pair_of_terms(rt: HostRuntime) -> Result<(), Fail> {
    assert_eq!(rt; first_wrong_equality(rt.alloc())?, None);
    Ok(())
}

#[test]
fn each_comparison_of_numbers(rt: HostRuntime) -> Result<(), Fail> {
    assert_eq!(rt; first_wrong_order(rt.alloc())?, None);
    Ok(())
}

#[test]
fn each_edge_of_an_expression(rt: HostRuntime) -> Result<(), Fail> {
    assert_eq!(rt; first_wrong_value(rt.alloc())?, None);
    Ok(())
}
