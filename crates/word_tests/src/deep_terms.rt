//! Deep, long and shared terms under `==`.
use crate::guards::test_both;
use crate::words::{NIL, deep, doubled, long};
use fcp_model::NoMemory;
use guard_tests::{TestLists, Tested};
use heap_words::TestKind;
use std::alloc::Global;
use std::test::Fail;
use word_sheets::Sheet;

/// Whether two words are the same terms, by `==`.
fn equality(alloc: Global, sheet: &mut Sheet, left: u64, right: u64) -> Result<Tested, NoMemory> {
    let mut lists = TestLists::make(alloc);
    let first = sheet.put(left)?;
    let second = sheet.put(right)?;
    let (found, _trail) = test_both(alloc, &mut lists, sheet, TestKind::Same, first, second)?;
    Ok(found)
}

/// A sheet on which terms can begin.
fn blank(alloc: Global) -> Result<Sheet, NoMemory> {
    let mut sheet = Sheet::make(alloc);
    for _ in 0..130 {
        sheet.put(NIL)?;
    }
    Ok(sheet)
}

/// The comparison of two terms of 1,000,000 pairs, each the first part of the next one.
fn deep_answer(alloc: Global) -> Result<Tested, NoMemory> {
    let mut sheet = blank(alloc)?;
    let left = deep(&mut sheet, 1_000_000)?;
    let right = deep(&mut sheet, 1_000_000)?;
    equality(alloc, &mut sheet, left, right)
}

/// The comparison of two lists of 1,000,000 elements.
fn long_answer(alloc: Global) -> Result<Tested, NoMemory> {
    let mut sheet = blank(alloc)?;
    let left = long(&mut sheet, 1_000_000)?;
    let right = long(&mut sheet, 1_000_000)?;
    equality(alloc, &mut sheet, left, right)
}

/// The comparison of two terms that were doubled 18 times.
fn doubled_answer(alloc: Global) -> Result<Tested, NoMemory> {
    let mut sheet = blank(alloc)?;
    let left = doubled(&mut sheet, 18)?;
    let right = doubled(&mut sheet, 18)?;
    equality(alloc, &mut sheet, left, right)
}

#[test]
fn deep_and_shared_terms_are_compared(rt: HostRuntime) -> Result<(), Fail> {
    assert_eq!(rt; deep_answer(rt.alloc())?, Tested::Holds);
    assert_eq!(rt; long_answer(rt.alloc())?, Tested::Holds);
    assert_eq!(rt; doubled_answer(rt.alloc())?, Tested::Holds);
    Ok(())
}
