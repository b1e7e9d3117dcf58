//! The words of the tests: some unbound places, bound ones, and terms.
use fcp_model::NoMemory;
use heap_words::Trail;
use std::alloc::Global;
use word_sheets::Sheet;

/// The unbound places of the tests, from the oldest.
pub(crate) const A: u32 = 2;

pub(crate) const B: u32 = 4;

pub(crate) const C: u32 = 6;

// The words of the tests: 16 times what the cell says, and the tag of its kind. A small number is raised by 2^55. `OF_` is a
// reference and `RO_` a read-only one: to an unbound place, or to one that is bound to a pair, to `A` or to `A?`. An `M` is a minus.
pub(crate) const NIL: u64 = 6;

pub(crate) const SMALL_1: u64 = 0x800000000000013;

pub(crate) const SMALL_2: u64 = 0x800000000000023;

pub(crate) const SMALL_3: u64 = 0x800000000000033;

pub(crate) const COUNT_2: u64 = 0x2a;

pub(crate) const OF_A: u64 = 0x21;

pub(crate) const SMALL_7: u64 = 0x800000000000073;

pub(crate) const OF_B: u64 = 0x41;

pub(crate) const RO_A: u64 = 0x22;

pub(crate) const OF_C: u64 = 0x61;

pub(crate) const PAIR_140: u64 = 0x8c7;

pub(crate) const SMALL_4: u64 = 0x800000000000043;

pub(crate) const SMALL_5: u64 = 0x800000000000053;

pub(crate) const SMALL_6: u64 = 0x800000000000063;

pub(crate) const COUNT_3: u64 = 0x3a;

pub(crate) const SMALL_8: u64 = 0x800000000000083;

pub(crate) const STRING_5: u64 = 0x55;

pub(crate) const STRING_9: u64 = 0x95;

pub(crate) const STRING_10: u64 = 0xa5;

pub(crate) const SMALL_0: u64 = 0x800000000000003;

pub(crate) const WIDE_150_1: u64 = 0x1000000964;

pub(crate) const WIDE_151_1: u64 = 0x1000000974;

pub(crate) const WIDE_152_1: u64 = 0x1000000984;

pub(crate) const WIDE_151_2: u64 = 0x2000000974;

pub(crate) const RO_B: u64 = 0x42;

pub(crate) const PAIR_142: u64 = 0x8e7;

pub(crate) const PAIR_160: u64 = 0xa07;

pub(crate) const PAIR_144: u64 = 0x907;

pub(crate) const TUPLE_384: u64 = 0x1808;

pub(crate) const TUPLE_128: u64 = 0x808;

pub(crate) const TUPLE_640: u64 = 0x2808;

pub(crate) const OF_BOUND: u64 = 0x1041;

pub(crate) const RO_BOUND: u64 = 0x1042;

pub(crate) const OF_BOUND_RO: u64 = 0x1061;

pub(crate) const RO_PAIR: u64 = 0x1022;

pub(crate) const PAIR_146: u64 = 0x927;

pub(crate) const PAIR_148: u64 = 0x947;

pub(crate) const SMALL_M1: u64 = 0x7fffffffffffff3;

pub(crate) const SMALL_M7: u64 = 0x7ffffffffffff93;

pub(crate) const SMALL_M2: u64 = 0x7ffffffffffffe3;

/// The greatest and the least number of 64 bits.
pub(crate) const WIDE_MOST: u64 = 0x7f000000994;

pub(crate) const WIDE_LEAST: u64 = 0x800000009a4;

/// A sheet with three unbound places, three bound ones, and some terms.
pub(crate) fn sheet(alloc: Global) -> Result<Sheet, NoMemory> {
    let mut sheet = Sheet::make(alloc);
    for _ in 0..710 {
        sheet.put(0)?;
    }
    for (at, word) in [
        (1, SMALL_1),
        (3, SMALL_2),
        (5, SMALL_3),
        // a tuple (A, 7), and pairs [A], [B], [A?], [C, A]
        (128, COUNT_2),
        (129, OF_A),
        (130, SMALL_7),
        (140, OF_A),
        (141, NIL),
        (142, OF_B),
        (143, NIL),
        (144, RO_A),
        (145, NIL),
        // pairs [5|A], [6|B]
        (146, SMALL_5),
        (147, OF_A),
        (148, SMALL_6),
        (149, OF_B),
        (160, OF_C),
        (161, PAIR_140),
        // lower bits of wide numbers
        (150, SMALL_1),
        (151, SMALL_1),
        (152, SMALL_2),
        (153, SMALL_M1),
        (154, SMALL_0),
        (257, SMALL_4),
        (258, PAIR_140),
        (259, SMALL_5),
        (260, OF_A),
        (261, SMALL_6),
        (262, RO_A),
        // tuples (B, 7, 8) and (B, 7)
        (384, COUNT_3),
        (385, OF_B),
        (386, SMALL_7),
        (387, SMALL_8),
        (640, COUNT_2),
        (641, OF_B),
        (642, SMALL_7),
    ] {
        if at < sheet.words.len() {
            sheet.words[at] = word;
        }
    }
    Ok(sheet)
}

/// Puts the empty list where no pair of a term may begin.
fn skip(sheet: &mut Sheet) -> Result<(), NoMemory> {
    if sheet.words.len() % 256 == 0 {
        for _ in 0..130 {
            sheet.put(NIL)?;
        }
    }
    Ok(())
}

/// A term of so many pairs, each the first part of the next one.
pub(crate) fn deep(sheet: &mut Sheet, pairs: u32) -> Result<u64, NoMemory> {
    let mut last = NIL;
    for _ in 0..pairs {
        skip(sheet)?;
        let at = sheet.put(last)?;
        sheet.put(NIL)?;
        last = 16 * at as u64 + 7;
    }
    Ok(last)
}

/// A list of so many empty lists.
pub(crate) fn long(sheet: &mut Sheet, elements: u32) -> Result<u64, NoMemory> {
    let mut last = NIL;
    for _ in 0..elements {
        skip(sheet)?;
        let at = sheet.put(NIL)?;
        sheet.put(last)?;
        last = 16 * at as u64 + 7;
    }
    Ok(last)
}

/// A pair whose two parts are one pair, and so on, so many times.
pub(crate) fn doubled(sheet: &mut Sheet, times: u32) -> Result<u64, NoMemory> {
    let mut last = NIL;
    for _ in 0..times {
        let at = sheet.put(last)?;
        sheet.put(last)?;
        last = 16 * at as u64 + 7;
    }
    Ok(last)
}

/// The first reads, with 0 after the last.
pub(crate) fn reads(trail: &Trail) -> [u32; 4] {
    [
        trail.read_at(0).unwrap_or(0),
        trail.read_at(1).unwrap_or(0),
        trail.read_at(2).unwrap_or(0),
        trail.read_at(3).unwrap_or(0),
    ]
}
