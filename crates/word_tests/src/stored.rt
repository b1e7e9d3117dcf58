//! Expressions that are stored as words.
use crate::words::{
    A, B, NIL, OF_A, OF_B, PAIR_140, RO_A, SMALL_0, SMALL_1, SMALL_2, SMALL_5, SMALL_7, SMALL_M7,
    STRING_5, TUPLE_128, WIDE_LEAST, WIDE_MOST, reads, sheet,
};
use fcp_model::NoMemory;
use guard_tests::Evaluated;
use heap_words::{Trail, Words};
use std::alloc::Global;
use std::test::Fail;
use stored_expressions::{ExpressionLists, number_of};
use word_sheets::Sheet;

// What stands in place of a number of parts: that of an operator, and one that is none.
const ADD: u64 = 0x42a;

const SUB: u64 = 0x43a;

const MUL: u64 = 0x44a;

const DIV: u64 = 0x45a;

const MOD: u64 = 0x46a;

const NO_OPERATOR: u64 = 0x47a;

/// The value of the word at an address, with nothing bound before.
fn value_at<W: Words>(
    alloc: Global,
    lists: &mut ExpressionLists,
    words: &mut W,
    at: u32,
) -> Result<(Evaluated, Trail), NoMemory>
    requires sound { W.sound words.old }
    requires known { W.knows words.old at }
{
    let mut trail = Trail::make(alloc)?;
    let word = words.load(at);
    let value = number_of(lists, &mut trail, words, word)?;
    Ok((value, trail))
}

/// Puts an operation at the head of a block, and answers its word.
fn operation(sheet: &mut Sheet, number: u64, left: u64, right: u64) -> Result<u64, NoMemory> {
    for _ in 0..256 {
        if sheet.words.len() % 256 != 128 {
            sheet.put(NIL)?;
        }
    }
    let at = sheet.put(number)?;
    sheet.put(left)?;
    sheet.put(right)?;
    Ok(16 * at as u64 + 8)
}

/// The value of a word, with the reads.
fn value(
    alloc: Global,
    lists: &mut ExpressionLists,
    sheet: &mut Sheet,
    word: u64,
) -> Result<(Evaluated, [u32; 4]), NoMemory> {
    // a word that is loaded stands 67 or more words behind the tuple to which it leads
    for _ in 0..70 {
        sheet.put(NIL)?;
    }
    let at = sheet.put(word)?;
    let (found, trail) = value_at(alloc, lists, sheet, at)?;
    Ok((found, reads(&trail)))
}

/// The first operation on two words with another value. Its lists are used again.
fn first_wrong_operation(alloc: Global) -> Result<Option<(u64, u64, u64)>, NoMemory> {
    let mut lists = ExpressionLists::make(alloc);
    let mut sheet = sheet(alloc)?;
    for (number, left, right, answer, read) in [
        (ADD, SMALL_5, SMALL_2, Evaluated::Value(7), 0),
        (SUB, SMALL_5, SMALL_2, Evaluated::Value(3), 0),
        (MUL, SMALL_5, SMALL_2, Evaluated::Value(10), 0),
        (DIV, SMALL_5, SMALL_2, Evaluated::Value(2), 0),
        (MOD, SMALL_5, SMALL_2, Evaluated::Value(1), 0),
        (DIV, SMALL_M7, SMALL_2, Evaluated::Value(-3), 0),
        (DIV, SMALL_5, SMALL_0, Evaluated::Bad, 0),
        (ADD, WIDE_MOST, WIDE_LEAST, Evaluated::Value(-1), 0),
        (ADD, WIDE_MOST, SMALL_1, Evaluated::Bad, 0),
        // the first operand that waits or is bad decides
        (ADD, OF_A, OF_B, Evaluated::Wait, A),
        (ADD, SMALL_1, RO_A, Evaluated::Wait, A),
        (ADD, OF_B, STRING_5, Evaluated::Wait, B),
        (ADD, STRING_5, OF_A, Evaluated::Bad, 0),
        (ADD, SMALL_1, PAIR_140, Evaluated::Bad, 0),
        (ADD, SMALL_1, TUPLE_128, Evaluated::Bad, 0),
        // a number that is no operator's
        (NO_OPERATOR, SMALL_5, SMALL_2, Evaluated::Bad, 0),
    ] {
        let word = operation(&mut sheet, number, left, right)?;
        let found = value(alloc, &mut lists, &mut sheet, word)?;
        if found.0 != answer || found.1 != [read, 0, 0, 0] {
            return Ok(Some((number, left, right)));
        }
    }
    Ok(None)
}

/// The first word that is no operation with another value.
fn first_wrong_leaf(alloc: Global) -> Result<Option<u64>, NoMemory> {
    let mut lists = ExpressionLists::make(alloc);
    let mut sheet = sheet(alloc)?;
    for (word, answer, read) in [
        (SMALL_7, Evaluated::Value(7), 0),
        (WIDE_MOST, Evaluated::Value(9223372036854775807), 0),
        (OF_A, Evaluated::Wait, A),
        (RO_A, Evaluated::Wait, A),
        (NIL, Evaluated::Bad, 0),
        (STRING_5, Evaluated::Bad, 0),
        (PAIR_140, Evaluated::Bad, 0),
        (TUPLE_128, Evaluated::Bad, 0),
    ] {
        let found = value(alloc, &mut lists, &mut sheet, word)?;
        if found.0 != answer || found.1 != [read, 0, 0, 0] {
            return Ok(Some(word));
        }
    }
    Ok(None)
}

/// The value of (7 - (5 - 2)) * ((7 mod 5) + 5).
fn nested_value(alloc: Global) -> Result<(Evaluated, [u32; 4]), NoMemory> {
    let mut lists = ExpressionLists::make(alloc);
    let mut sheet = sheet(alloc)?;
    let inner = operation(&mut sheet, SUB, SMALL_5, SMALL_2)?;
    let left = operation(&mut sheet, SUB, SMALL_7, inner)?;
    let rest = operation(&mut sheet, MOD, SMALL_7, SMALL_5)?;
    let right = operation(&mut sheet, ADD, rest, SMALL_5)?;
    let whole = operation(&mut sheet, MUL, left, right)?;
    value(alloc, &mut lists, &mut sheet, whole)
}

/// The value of (1 + A?) - B, of which one place is read.
fn waiting_value(alloc: Global) -> Result<(Evaluated, [u32; 4]), NoMemory> {
    let mut lists = ExpressionLists::make(alloc);
    let mut sheet = sheet(alloc)?;
    let left = operation(&mut sheet, ADD, SMALL_1, RO_A)?;
    let whole = operation(&mut sheet, SUB, left, OF_B)?;
    value(alloc, &mut lists, &mut sheet, whole)
}

/// The value of 1 after it was raised by 1 so many times, on the left or on the right.
fn raised(alloc: Global, times: u32, on_left: bool) -> Result<(Evaluated, [u32; 4]), NoMemory> {
    let mut lists = ExpressionLists::make(alloc);
    let mut sheet = sheet(alloc)?;
    let mut word = SMALL_1;
    for _ in 0..times {
        word = if on_left {
            operation(&mut sheet, ADD, word, SMALL_1)?
        } else {
            operation(&mut sheet, ADD, SMALL_1, word)?
        };
    }
    value(alloc, &mut lists, &mut sheet, word)
}

/// The value of 1 after it was added to itself 12 times.
fn doubled_value(alloc: Global) -> Result<(Evaluated, [u32; 4]), NoMemory> {
    let mut lists = ExpressionLists::make(alloc);
    let mut sheet = sheet(alloc)?;
    let mut word = SMALL_1;
    for _ in 0..12 {
        word = operation(&mut sheet, ADD, word, word)?;
    }
    value(alloc, &mut lists, &mut sheet, word)
}

#[test]
fn each_operation(rt: HostRuntime) -> Result<(), Fail> {
    assert_eq!(rt; first_wrong_operation(rt.alloc())?, None);
    Ok(())
}

#[test]
fn each_leaf(rt: HostRuntime) -> Result<(), Fail> {
    assert_eq!(rt; first_wrong_leaf(rt.alloc())?, None);
    Ok(())
}

#[test]
fn nested_operations(rt: HostRuntime) -> Result<(), Fail> {
    assert_eq!(rt;
        nested_value(rt.alloc())?,
        (Evaluated::Value(28), [0, 0, 0, 0])
    );
    assert_eq!(rt; waiting_value(rt.alloc())?, (Evaluated::Wait, [A, 0, 0, 0]));
    Ok(())
}

#[test]
fn deep_and_shared_expressions(rt: HostRuntime) -> Result<(), Fail> {
    assert_eq!(rt;
        raised(rt.alloc(), 2_000, true)?,
        (Evaluated::Value(2_001), [0, 0, 0, 0])
    );
    assert_eq!(rt;
        raised(rt.alloc(), 2_000, false)?,
        (Evaluated::Value(2_001), [0, 0, 0, 0])
    );
    assert_eq!(rt;
        doubled_value(rt.alloc())?,
        (Evaluated::Value(4_096), [0, 0, 0, 0])
    );
    Ok(())
}
