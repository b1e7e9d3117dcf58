//! Trials of the built-in processes: `true`, `=` and `:=`.
use crate::answers::{Answer, Commit, NOTHING, Row, wrong_row};
use fcp_model::Sym;
use heap_words::{Cell, OWN};
use std::test::Fail;

/// The module, in which no built-in process looks. Its strings have the numbers 9 and 10.
const MODULE: &str = "p(a).";

const A: Cell = Cell::Str(Sym(10));

/// The first string of a goal, behind the name of one variable, which has a number too.
const B: Cell = Cell::Str(Sym(12));

const UNIFICATIONS: &[Row] = &[
    Row {
        file: MODULE,
        goal: "true",
        answer: Answer::Commits(NOTHING),
        reads: &[3, 4],
    },
    Row {
        file: MODULE,
        goal: "X = a",
        answer: Answer::Commits(Commit {
            clause: 0,
            binds: &[(2, A)],
            pieces: &[],
            children: 0,
        }),
        reads: &[5, 6, 7, 8, 2],
    },
    // the younger place may be bound
    Row {
        file: MODULE,
        goal: "X? = Y",
        answer: Answer::Commits(Commit {
            clause: 0,
            binds: &[(4, Cell::RoRef(2))],
            pieces: &[],
            children: 0,
        }),
        reads: &[7, 8, 9, 10, 2, 4],
    },
    Row {
        file: MODULE,
        goal: "a = X?",
        answer: Answer::Waits(&[2]),
        reads: &[5, 6, 7, 8, 2],
    },
    // part by part
    Row {
        file: MODULE,
        goal: "[X|a] = [b|Y]",
        answer: Answer::Commits(Commit {
            clause: 0,
            binds: &[(2, B), (4, A)],
            pieces: &[],
            children: 0,
        }),
        reads: &[11, 12, 13, 14, 5, 6, 7, 8, 2, 4],
    },
    Row {
        file: MODULE,
        goal: "a = b",
        answer: Answer::Fails,
        reads: &[3, 4, 5, 6],
    },
    // the place would occur in its own value
    Row {
        file: MODULE,
        goal: "X = f(X)",
        answer: Answer::Fails,
        reads: &[8, 9, 10, 11, 2, 3, 4, 5],
    },
];

#[test]
fn terms_are_unified(rt: HostRuntime) -> Result<(), Fail> {
    assert_eq!(rt; wrong_row(rt.alloc(), UNIFICATIONS)?, None);
    Ok(())
}

/// The first argument is looked at once there is a number.
const ASSIGNMENTS: &[Row] = &[
    Row {
        file: MODULE,
        goal: "X := 2 + 3 * 4",
        answer: Answer::Commits(Commit {
            clause: 0,
            binds: &[(2, Cell::Small(14))],
            pieces: &[],
            children: 0,
        }),
        reads: &[11, 12, 13, 14, 3, 4, 5, 6, 7, 8, 2],
    },
    // a number of 64 bits takes a piece: its upper bits are 0x7f, and its lower ones those of -1
    Row {
        file: MODULE,
        goal: "X := 9223372036854775807 + 0",
        answer: Answer::Commits(Commit {
            clause: 0,
            binds: &[(2, Cell::Wide(OWN, 0x7f))],
            pieces: &[&[Cell::Small(-1)]],
            children: 0,
        }),
        reads: &[9, 10, 11, 12, 3, 4, 5, 6, 2],
    },
    Row {
        file: MODULE,
        goal: "7 := 3 + 4",
        answer: Answer::Commits(NOTHING),
        reads: &[6, 7, 8, 9, 1, 2, 3],
    },
    Row {
        file: MODULE,
        goal: "8 := 3 + 4",
        answer: Answer::Fails,
        reads: &[6, 7, 8, 9, 1, 2, 3],
    },
    // no number of 64 bits
    Row {
        file: MODULE,
        goal: "X := 9223372036854775807 + 1",
        answer: Answer::Fails,
        reads: &[9, 10, 12, 3, 4, 5, 6],
    },
    Row {
        file: MODULE,
        goal: "X := 1 / 0",
        answer: Answer::Fails,
        reads: &[8, 9, 11, 3, 4, 5],
    },
    Row {
        file: MODULE,
        goal: "X := Y + 1",
        answer: Answer::Waits(&[4]),
        reads: &[10, 11, 13, 5, 6, 7, 4],
    },
];

#[test]
fn numbers_are_assigned(rt: HostRuntime) -> Result<(), Fail> {
    assert_eq!(rt; wrong_row(rt.alloc(), ASSIGNMENTS)?, None);
    Ok(())
}
