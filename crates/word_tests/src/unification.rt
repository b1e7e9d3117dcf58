//! Unification of words.
use crate::words::{
    A, B, C, NIL, OF_A, OF_B, OF_BOUND, OF_BOUND_RO, OF_C, PAIR_140, PAIR_142, PAIR_144, PAIR_160,
    RO_A, RO_B, RO_BOUND, RO_PAIR, SMALL_0, SMALL_1, SMALL_5, SMALL_6, SMALL_7, STRING_5, STRING_9,
    STRING_10, TUPLE_128, TUPLE_384, TUPLE_640, WIDE_150_1, WIDE_151_1, WIDE_151_2, WIDE_152_1,
    deep, doubled, long, reads, sheet,
};
use fcp_model::NoMemory;
use heap_words::{Trail, Words};
use ro_unify::{Unified, WorkLists, unify};
use std::alloc::Global;
use std::test::Fail;
use word_sheets::Sheet;

/// Unifies the words at two addresses, with nothing bound before.
fn unify_at<W: Words>(
    alloc: Global,
    lists: &mut WorkLists,
    words: &mut W,
    first: u32,
    second: u32,
) -> Result<(Unified, Trail), NoMemory>
    requires sound { W.sound words.old }
    requires known { W.knows words.old first }
    requires also { W.knows words.old second }
{
    let mut trail = Trail::make(alloc)?;
    let left = words.load(first);
    let right = words.load(second);
    let end = unify(lists, &mut trail, words, [(left, right)].as_slice())?;
    Ok((end, trail))
}

/// Unifies two words over a sheet, which are put at its end.
fn unify_two(
    alloc: Global,
    lists: &mut WorkLists,
    sheet: &mut Sheet,
    left: u64,
    right: u64,
) -> Result<(Unified, Trail), NoMemory> {
    let first = sheet.put(left)?;
    let second = sheet.put(right)?;
    unify_at(alloc, lists, sheet, first, second)
}

/// The first binding, and whether there is a second one.
fn binding(trail: &Trail) -> (Option<(u32, u64)>, bool) {
    (trail.bound_at(0), trail.bound_at(1).is_some())
}

#[test]
fn each_line_of_the_table(rt: HostRuntime) -> Result<(), Fail> {
    let mut lists = WorkLists::make(rt.alloc());
    for (left, right, end, bound, read) in [
        (SMALL_5, SMALL_5, Unified::Done, None, [0, 0, 0, 0]),
        (SMALL_5, SMALL_6, Unified::Clash, None, [0, 0, 0, 0]),
        (SMALL_5, STRING_5, Unified::Clash, None, [0, 0, 0, 0]),
        (STRING_9, STRING_9, Unified::Done, None, [0, 0, 0, 0]),
        (STRING_9, STRING_10, Unified::Clash, None, [0, 0, 0, 0]),
        (NIL, NIL, Unified::Done, None, [0, 0, 0, 0]),
        (NIL, SMALL_0, Unified::Clash, None, [0, 0, 0, 0]),
        (WIDE_150_1, WIDE_151_1, Unified::Done, None, [0, 0, 0, 0]),
        (WIDE_150_1, WIDE_152_1, Unified::Clash, None, [0, 0, 0, 0]),
        (WIDE_150_1, WIDE_151_2, Unified::Clash, None, [0, 0, 0, 0]),
        (WIDE_150_1, SMALL_1, Unified::Clash, None, [0, 0, 0, 0]),
        (OF_A, OF_A, Unified::Done, None, [A, A, 0, 0]),
        (OF_A, OF_B, Unified::Done, Some((B, OF_A)), [A, B, 0, 0]),
        (OF_B, OF_A, Unified::Done, Some((B, OF_A)), [B, A, 0, 0]),
        (OF_A, RO_A, Unified::Done, None, [A, A, 0, 0]),
        (RO_A, OF_A, Unified::Done, None, [A, A, 0, 0]),
        (OF_A, RO_B, Unified::Done, Some((A, RO_B)), [A, B, 0, 0]),
        (RO_B, OF_A, Unified::Done, Some((A, RO_B)), [B, A, 0, 0]),
        (RO_A, RO_A, Unified::Done, None, [A, A, 0, 0]),
        (RO_A, RO_B, Unified::Wait, None, [A, B, 0, 0]),
        (
            OF_A,
            SMALL_7,
            Unified::Done,
            Some((A, SMALL_7)),
            [A, 0, 0, 0],
        ),
        (
            SMALL_7,
            OF_A,
            Unified::Done,
            Some((A, SMALL_7)),
            [A, 0, 0, 0],
        ),
        (RO_A, SMALL_7, Unified::Wait, None, [A, 0, 0, 0]),
        (SMALL_7, RO_A, Unified::Wait, None, [A, 0, 0, 0]),
        // the occurs check reads the leaves up to the place
        (
            OF_A,
            PAIR_142,
            Unified::Done,
            Some((A, PAIR_142)),
            [A, B, 0, 0],
        ),
        (OF_A, PAIR_160, Unified::Clash, None, [A, C, A, 0]),
        (OF_A, PAIR_144, Unified::Clash, None, [A, A, 0, 0]),
        (
            OF_C,
            TUPLE_384,
            Unified::Done,
            Some((C, TUPLE_384)),
            [C, B, 0, 0],
        ),
        // parts from the left
        (
            PAIR_140,
            PAIR_142,
            Unified::Done,
            Some((B, OF_A)),
            [A, B, 0, 0],
        ),
        (PAIR_140, TUPLE_128, Unified::Clash, None, [0, 0, 0, 0]),
        (
            PAIR_144,
            PAIR_142,
            Unified::Done,
            Some((B, RO_A)),
            [A, B, 0, 0],
        ),
        (
            TUPLE_128,
            TUPLE_640,
            Unified::Done,
            Some((B, OF_A)),
            [A, B, 0, 0],
        ),
        (TUPLE_128, TUPLE_384, Unified::Clash, None, [0, 0, 0, 0]),
        // bound places
        (OF_BOUND, OF_B, Unified::Done, Some((B, OF_A)), [A, B, 0, 0]),
        (RO_BOUND, SMALL_7, Unified::Wait, None, [A, 0, 0, 0]),
        (OF_BOUND_RO, SMALL_7, Unified::Wait, None, [A, 0, 0, 0]),
        (RO_PAIR, PAIR_140, Unified::Done, None, [A, A, 0, 0]),
    ] {
        let mut sheet = sheet(rt.alloc())?;
        let (found, trail) = unify_two(rt.alloc(), &mut lists, &mut sheet, left, right)?;
        assert_eq!(rt; found, end, "{left:x} {right:x}");
        assert_eq!(rt; binding(&trail), (bound, false), "{left:x} {right:x}");
        assert_eq!(rt; reads(&trail), read, "{left:x} {right:x}");
    }
    Ok(())
}

#[test]
fn a_deep_term_is_unified(rt: HostRuntime) -> Result<(), Fail> {
    let mut lists = WorkLists::make(rt.alloc());
    let mut sheet = Sheet::make(rt.alloc());
    for _ in 0..2 {
        sheet.put(0)?;
    }
    for _ in 0..254 {
        sheet.put(NIL)?;
    }
    let left = deep(&mut sheet, 1_000_000)?;
    let right = deep(&mut sheet, 1_000_000)?;
    let (end, trail) = unify_two(rt.alloc(), &mut lists, &mut sheet, left, right)?;
    assert_eq!(rt; end, Unified::Done);
    assert_eq!(rt; reads(&trail), [0, 0, 0, 0]);
    // and bound to a place, which an occurs check walks first
    let (end, trail) = unify_two(rt.alloc(), &mut lists, &mut sheet, 0x11, left)?;
    assert_eq!(rt; end, Unified::Done);
    assert_eq!(rt; binding(&trail), (Some((1, left)), false));
    assert_eq!(rt; reads(&trail), [1, 0, 0, 0]);
    Ok(())
}

/// How two lists of 1,000,000 elements unify.
fn long_end(alloc: Global) -> Result<Unified, NoMemory> {
    let mut lists = WorkLists::make(alloc);
    let mut sheet = Sheet::make(alloc);
    for _ in 0..130 {
        sheet.put(NIL)?;
    }
    let left = long(&mut sheet, 1_000_000)?;
    let right = long(&mut sheet, 1_000_000)?;
    let (end, _trail) = unify_two(alloc, &mut lists, &mut sheet, left, right)?;
    Ok(end)
}

/// How two terms unify that were doubled 18 times.
fn doubled_end(alloc: Global) -> Result<Unified, NoMemory> {
    let mut lists = WorkLists::make(alloc);
    let mut sheet = Sheet::make(alloc);
    for _ in 0..130 {
        sheet.put(NIL)?;
    }
    let left = doubled(&mut sheet, 18)?;
    let right = doubled(&mut sheet, 18)?;
    let (end, _trail) = unify_two(alloc, &mut lists, &mut sheet, left, right)?;
    Ok(end)
}

#[test]
fn long_and_shared_terms_are_unified(rt: HostRuntime) -> Result<(), Fail> {
    assert_eq!(rt; long_end(rt.alloc())?, Unified::Done);
    assert_eq!(rt; doubled_end(rt.alloc())?, Unified::Done);
    Ok(())
}
