use crate::words::{deep, long};
use fcp_model::{Names, NoMemory};
use heap_words::{Trail, Words};
use std::alloc::Global;
use std::test::Fail;
use word_sheets::Sheet;
use word_texts::{TextLists, value_text};

// The words of the tests: 16 times what the cell says, and the tag of its kind. A small number is raised by 2^55. `OF_` is a
// reference and `RO_` a read-only one, to an unbound place or to one that is bound.
const NIL: u64 = 6;

/// The name of `_3.5`, and that of `_0.12`.
const NAME_3_5: u64 = 0x800000300000053;

const NAME_0_12: u64 = 0x8000000000000c3;

const SMALL_0: u64 = 0x800000000000003;

const SMALL_1: u64 = 0x800000000000013;

const SMALL_2: u64 = 0x800000000000023;

const SMALL_7: u64 = 0x800000000000073;

const SMALL_MINUS_1: u64 = 0x7fffffffffffff3;

const SMALL_MINUS_5: u64 = 0x7ffffffffffffb3;

/// The greatest and the least number that is small.
const SMALL_MOST: u64 = 0xffffffffffffff3;

const SMALL_LEAST: u64 = 0x3;

/// The lower bits at 150, 151, 152 and 153, with the upper ones.
const WIDE_150: u64 = 0x7f000000964;

const WIDE_151: u64 = 0x80000000974;

const WIDE_152: u64 = 0x984;

const WIDE_153: u64 = 0xff000000994;

const STRING_TRUE: u64 = 0x5;

const STRING_F: u64 = 0x95;

const STRING_QUOTED: u64 = 0xa5;

const STRING_NONE: u64 = 0xff5;

const OF_A: u64 = 0x21;

const RO_A: u64 = 0x22;

const OF_B: u64 = 0x41;

const OF_BOUND_TO_RO: u64 = 0x61;

const OF_BOUND_TO_F: u64 = 0x71;

const PAIR_138: u64 = 0x8a7;

const PAIR_140: u64 = 0x8c7;

const PAIR_142: u64 = 0x8e7;

const TUPLE_128: u64 = 0x808;

const TUPLE_384: u64 = 0x1808;

const TUPLE_640: u64 = 0x2808;

const TUPLE_896: u64 = 0x3808;

const TUPLE_1152: u64 = 0x4808;

const RAW_0: u64 = 0xa;

const RAW_1: u64 = 0x1a;

const RAW_2: u64 = 0x2a;

const RAW_3: u64 = 0x3a;

/// A sheet with two unbound places, two bound ones, and some terms.
fn sheet(alloc: Global) -> Result<Sheet, NoMemory> {
    let mut sheet = Sheet::make(alloc);
    for _ in 0..1300 {
        sheet.put(0)?;
    }
    for (at, word) in [
        (1, NAME_3_5),
        (3, NAME_0_12),
        (6, RO_A),
        (7, STRING_F),
        // the tuple (f, A, 7), the list [1, 2], and [A? | B]
        (128, RAW_3),
        (129, STRING_F),
        (130, OF_A),
        (131, SMALL_7),
        (138, SMALL_2),
        (139, NIL),
        (140, SMALL_1),
        (141, PAIR_138),
        (142, RO_A),
        (143, OF_B),
        // lower bits of long numbers
        (150, SMALL_MINUS_1),
        (151, SMALL_0),
        (152, SMALL_LEAST),
        (153, SMALL_MOST),
        // the tuples (f), (1, 2), (f, []) by a bound place, and one without parts
        (384, RAW_1),
        (385, STRING_F),
        (640, RAW_2),
        (641, SMALL_1),
        (642, SMALL_2),
        (896, RAW_2),
        (897, OF_BOUND_TO_F),
        (898, NIL),
        (1152, RAW_0),
    ] {
        if at < sheet.words.len() {
            sheet.words[at] = word;
        }
    }
    Ok(sheet)
}

/// The reserved names, and two strings.
fn names(alloc: Global) -> Result<Names, NoMemory> {
    let mut names = Names::make(alloc)?;
    names.note("f")?;
    names.note("it's")?;
    Ok(names)
}

/// The text of the word at an address, with nothing bound before.
fn text_at<W: Words>(
    alloc: Global,
    lists: &mut TextLists,
    words: &mut W,
    names: &Names,
    at: u32,
    nodes: u32,
) -> Result<Vec<u8>, NoMemory>
    requires sound { W.sound words.old }
    requires known { W.knows words.old at }
{
    let mut trail = Trail::make(alloc)?;
    let mut out = Vec::new(alloc);
    let word = words.load(at);
    value_text(lists, &mut trail, words, names, &mut out, word, nodes)?;
    Ok(out)
}

/// The text of a word over a sheet, at whose end it is put.
fn text_of(
    alloc: Global,
    lists: &mut TextLists,
    sheet: &mut Sheet,
    names: &Names,
    word: u64,
    nodes: u32,
) -> Result<Vec<u8>, NoMemory> {
    let at = sheet.put(word)?;
    text_at(alloc, lists, sheet, names, at, nodes)
}

#[test]
fn values_have_their_texts(rt: HostRuntime) -> Result<(), Fail> {
    let mut lists = TextLists::make(rt.alloc());
    let mut sheet = sheet(rt.alloc())?;
    let names = names(rt.alloc())?;
    for (word, nodes, text) in [
        (SMALL_7, 9, "7"),
        (SMALL_MINUS_5, 9, "-5"),
        (SMALL_MOST, 9, "36028797018963967"),
        (SMALL_LEAST, 9, "-36028797018963968"),
        (WIDE_150, 9, "9223372036854775807"),
        (WIDE_151, 9, "-9223372036854775808"),
        (WIDE_152, 9, "36028797018963968"),
        (WIDE_153, 9, "-36028797018963969"),
        (STRING_TRUE, 9, "true"),
        (STRING_QUOTED, 9, "'it''s'"),
        (STRING_NONE, 9, "''"),
        (NIL, 9, "[]"),
        (OF_A, 9, "_3.5"),
        (RO_A, 9, "_3.5?"),
        (OF_B, 9, "_0.12"),
        (OF_BOUND_TO_RO, 9, "_3.5?"),
        (OF_BOUND_TO_F, 9, "f"),
        // lists, cut after fewer and fewer nodes
        (PAIR_140, 5, "[1,2]"),
        (PAIR_140, 4, "[1,2|..]"),
        (PAIR_140, 3, "[1,..|..]"),
        (PAIR_140, 2, "[1|..]"),
        (PAIR_140, 1, "[..|..]"),
        (PAIR_140, 0, ".."),
        (PAIR_142, 3, "[_3.5?|_0.12]"),
        (PAIR_142, 2, "[_3.5?|..]"),
        // tuples
        (TUPLE_128, 4, "f(_3.5,7)"),
        (TUPLE_128, 3, "f(_3.5,..)"),
        (TUPLE_128, 2, "f(..,..)"),
        (TUPLE_128, 1, "{..,..,..}"),
        (TUPLE_384, 9, "{f}"),
        (TUPLE_640, 9, "{1,2}"),
        (TUPLE_896, 3, "f([])"),
        (TUPLE_896, 1, "{..,..}"),
        (TUPLE_1152, 9, "{}"),
    ] {
        let found = text_of(rt.alloc(), &mut lists, &mut sheet, &names, word, nodes)?;
        assert_eq!(rt; found.as_slice(), text.as_bytes());
    }
    Ok(())
}

#[test]
fn a_deep_term_has_its_text(rt: HostRuntime) -> Result<(), Fail> {
    let mut lists = TextLists::make(rt.alloc());
    let names = Names::make(rt.alloc())?;
    let mut sheet = Sheet::make(rt.alloc());
    for _ in 0..256 {
        sheet.put(NIL)?;
    }
    let word = deep(&mut sheet, 1_000_000)?;
    let cut = text_of(rt.alloc(), &mut lists, &mut sheet, &names, word, 3)?;
    assert_eq!(rt; cut.as_slice(), "[[[..|..]|..]|..]".as_bytes());
    let whole = text_of(rt.alloc(), &mut lists, &mut sheet, &names, word, u32::MAX)?;
    assert_eq!(rt; whole.len(), 2_000_002);
    Ok(())
}

/// The text of a list of 1,000,000 elements, cut after so many nodes.
fn long_text(alloc: Global, nodes: u32) -> Result<Vec<u8>, NoMemory> {
    let mut lists = TextLists::make(alloc);
    let names = Names::make(alloc)?;
    let mut sheet = Sheet::make(alloc);
    for _ in 0..256 {
        sheet.put(NIL)?;
    }
    let word = long(&mut sheet, 1_000_000)?;
    text_of(alloc, &mut lists, &mut sheet, &names, word, nodes)
}

#[test]
fn a_long_list_has_its_text(rt: HostRuntime) -> Result<(), Fail> {
    let cut = long_text(rt.alloc(), 3)?;
    assert_eq!(rt; cut.as_slice(), "[[],..|..]".as_bytes());
    let whole = long_text(rt.alloc(), u32::MAX)?;
    assert_eq!(rt; whole.len(), 3_000_001);
    Ok(())
}
