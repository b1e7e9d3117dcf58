//! Control texts with what they ask for, or with the places of their faults.
use control_texts::{ControlFault, read_controls};
use fcp_model::{Act, Control, Seq};
use std::alloc::Global;
use std::test::Fail;

/// Texts that ask for something, each written again with one space between two words and none else.
const READ: &[(&str, &str)] = &[
    ("after 1 abort", "after 1 abort"),
    ("after 0 abort", "after 0 abort"),
    ("after 5 snapshot", "after 5 snapshot"),
    ("after 5 suspend", "after 5 suspend"),
    (
        "after 5 suspend;after 5 resume",
        "after 5 suspend;after 5 resume",
    ),
    (
        "after 5 suspend ; after 5 snapshot ; after 5 resume",
        "after 5 suspend;after 5 snapshot;after 5 resume",
    ),
    ("  after 1 snapshot  ", "after 1 snapshot"),
    (
        " after  1   snapshot  ;   after 2 abort ",
        "after 1 snapshot;after 2 abort",
    ),
    (
        "after 1 snapshot;after 1 snapshot",
        "after 1 snapshot;after 1 snapshot",
    ),
    (
        "after 1 suspend;after 2 resume;after 3 suspend",
        "after 1 suspend;after 2 resume;after 3 suspend",
    ),
    (
        "after 1 suspend;after 1 abort",
        "after 1 suspend;after 1 abort",
    ),
    (
        "after 1 suspend;after 1 snapshot;after 1 snapshot;after 1 abort",
        "after 1 suspend;after 1 snapshot;after 1 snapshot;after 1 abort",
    ),
    ("after 0000001 snapshot", "after 1 snapshot"),
    ("after 007 snapshot", "after 7 snapshot"),
    ("after 1000000 snapshot", "after 1000000 snapshot"),
    ("after 0999999 abort", "after 999999 abort"),
    (
        "after 1 suspend;after 9 resume;after 9 suspend;after 10 resume;after 11 abort",
        "after 1 suspend;after 9 resume;after 9 suspend;after 10 resume;after 11 abort",
    ),
    (
        "after 3 snapshot;after 03 snapshot",
        "after 3 snapshot;after 3 snapshot",
    ),
    (
        "after 0 snapshot;after 0 suspend;after 0 resume",
        "after 0 snapshot;after 0 suspend;after 0 resume",
    ),
    ("after 0000000 abort", "after 0 abort"),
];

/// Texts that ask for nothing, each with the place of its fault.
const UNREAD: &[(&str, u32)] = &[
    ("", 0),
    (" ", 1),
    ("   ", 3),
    ("x", 0),
    ("abort", 0),
    ("1", 0),
    ("After 1 abort", 0),
    ("AFTER 1 abort", 0),
    ("afte 1 abort", 0),
    ("afterr 1 abort", 0),
    ("after1 abort", 0),
    ("after1abort", 0),
    (";", 0),
    ("; after 1 abort", 0),
    (";;", 0),
    (" ;after 1 abort", 1),
    ("aft er 1 abort", 0),
    ("after", 5),
    ("after ", 6),
    ("after 1", 7),
    ("after 1 ", 8),
    ("  after", 7),
    ("after 1 snapshot;", 17),
    ("after 1 snapshot ; ", 19),
    ("after 1 snapshot;after", 22),
    ("after 1 snapshot;after 2", 24),
    ("after 1 snapshot;;after 2 abort", 17),
    ("after 1 snapshot; ;after 2 abort", 18),
    ("after 1 snapshot;;", 17),
    ("after -1 abort", 6),
    ("after +1 abort", 6),
    ("after x abort", 6),
    ("after 1.0 abort", 6),
    ("after 1, abort", 6),
    ("after 0x1 abort", 6),
    ("after 1000001 abort", 6),
    ("after 9999999 abort", 6),
    ("after 00000001 abort", 6),
    ("after 10000000 abort", 6),
    ("after 00000000 abort", 6),
    ("after 1a abort", 6),
    ("after ; abort", 6),
    ("after abort", 6),
    ("after after 1 abort", 6),
    ("after 1 1 abort", 8),
    ("after 5 snapshot;after 4 snapshot", 23),
    ("after 5 snapshot; after 0 abort", 24),
    ("after 1000000 snapshot;after 999999 abort", 29),
    ("after 2 snapshot;after 3 snapshot;after 1 abort", 40),
    ("after 1 stop", 8),
    ("after 1 Abort", 8),
    ("after 1 abor", 8),
    ("after 1 abortt", 8),
    ("after 1 abort.", 8),
    ("after 1 resume", 8),
    ("after 1 resume;after 2 suspend", 8),
    ("after 1 snapshot;after 1 resume", 25),
    ("after 1 suspend;after 2 suspend", 24),
    ("after 1 suspend;after 2 resume;after 3 resume", 39),
    ("after 1 suspend;after 1 snapshot;after 2 suspend", 41),
    ("after 1 ;", 8),
    ("after 1 snapshot snapshot", 17),
    ("after 1 snapshot after 2 abort", 17),
    ("after 1 suspend suspend", 16),
    ("after 1 snapshot abort", 17),
    ("after 1 snapshot,after 2 abort", 8),
    ("after 1 abort;", 13),
    ("after 1 abort ;", 14),
    ("after 1 abort;after 2 abort", 13),
    ("after 1 abort; after 2 snapshot", 13),
    ("after 1 abort x", 14),
    ("after 1 abort abort", 14),
    ("after 1 suspend;after 1 abort;after 2 resume", 29),
    ("after\t1 abort", 0),
    ("\tafter 1 abort", 0),
    ("after 1 abort\t", 8),
    ("after 1\tabort", 6),
    ("after 1 abort\n", 8),
    ("after 1 snapshot;\tafter 2 abort", 17),
    ("after 1 snapé", 8),
    ("après 1 abort", 0),
    ("after 1 é ;", 8),
    ("after ١ abort", 6),
];

/// The word of an act.
fn word_of(act: Act) -> &'static str {
    match act {
        Act::Snapshot => "snapshot",
        Act::Suspend => "suspend",
        Act::Resume => "resume",
        Act::Abort => "abort",
    }
}

/// What controls ask for, with one space between two words and none else.
fn written(alloc: Global, controls: &[Control]) -> Result<String, Fail> {
    let mut text = String::new(alloc);
    for control in controls {
        if !text.is_empty() {
            text.push_str(";")?;
        }
        let item = format!(in alloc; "after {} {}", control.after, word_of(control.act))?;
        text.push_str(item.as_str())?;
    }
    Ok(text)
}

/// Reads a control text of a table, all of which are short.
fn read_short(alloc: Global, text: &str) -> Result<Seq<Control>, ControlFault> {
    if text.len() > 65_536 {
        return Err(ControlFault::Unread { at: 65_536 });
    }
    read_controls(alloc, text)
}

#[test]
fn texts_that_ask_for_controls(rt: HostRuntime) -> Result<(), Fail> {
    for (text, wanted) in READ {
        let controls = read_short(rt.alloc(), text).expect(&rt, text);
        let given = written(rt.alloc(), controls.into_vec().as_slice())?;
        assert_eq!(rt; given.as_str(), *wanted, "{text}");
    }
    Ok(())
}

#[test]
fn texts_with_faults(rt: HostRuntime) {
    for (text, at) in UNREAD {
        let given = read_short(rt.alloc(), text).err();
        assert_eq!(rt; given, Some(ControlFault::Unread { at: *at }), "{text}");
    }
}

/// So many snapshots, and what stands behind them.
fn snapshots(alloc: Global, count: u32, end: &str) -> Result<String, Fail> {
    let mut text = String::from_str(alloc, "after 1 snapshot")?;
    for _ in 1..count {
        text.push_str(";after 1 snapshot")?;
    }
    text.push_str(end)?;
    Ok(text)
}

/// An item has 16 bytes, and with its `;` 17, so the 64th `;` stands at 64 times 17 less one.
#[test]
fn at_most_64_items(rt: HostRuntime) -> Result<(), Fail> {
    let rows = [
        (64, "", None),
        (64, " ", None),
        (63, ";after 1 abort", None),
        (64, ";", Some(1087)),
        (65, "", Some(1087)),
        (64, ";after 1 abort", Some(1087)),
        (64, " x", Some(1088)),
        (63, ";after 1", Some(1078)),
    ];
    for (count, end, at) in rows {
        let text = snapshots(rt.alloc(), count, end)?;
        let given = read_short(rt.alloc(), text.as_str()).err();
        let wanted = at.map(|at| ControlFault::Unread { at });
        assert_eq!(rt; given, wanted, "{count} {end}");
    }
    Ok(())
}
