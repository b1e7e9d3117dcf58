//! Trials while another writer binds a place: what is decided agrees with the word of the place that was read.
use crate::answers::{Answer, Commit, NOTHING, TRUE, hands_over};
use crate::prepared::code_of;
use crate::turning::{NUMBER, PLACE, decide_turning};
use crate::worked::{WORKED, Worked};
use heap_words::{Cell, decode};
use std::alloc::Global;
use std::test::Fail;
use trial_machine::{Machine, Trial};

/// A module and a goal with a variable, how the goal's process is decided where its place was read unbound, and where it was
/// read bound.
#[derive(Clone, Copy)]
struct Pair<'a> {
    file: &'a str,
    goal: &'a str,
    unbound: Answer<'a>,
    bound: Answer<'a>,
}

/// The cell that was read at the place, where it was read.
fn place_read(machine: &Machine) -> Option<Cell> {
    for read in machine.reads() {
        if read.0 == PLACE {
            return decode(read.1);
        }
    }
    None
}

/// Whether a trial was decided as the cell says that was read at the place. Where it was not read, both answers hold.
fn agrees(machine: &Machine, trial: Trial, pair: &Pair) -> bool {
    match place_read(machine) {
        None => {
            hands_over(machine, trial, &pair.unbound) && hands_over(machine, trial, &pair.bound)
        }
        Some(Cell::Unbound(0)) => hands_over(machine, trial, &pair.unbound),
        Some(cell) => { cell == Cell::Small(NUMBER) && hands_over(machine, trial, &pair.bound) }
    }
}

/// In how many trials the place was read bound, where it is bound after 0 loads, after one, and so on up to 15; `None` where one of them
/// was not decided as it was read.
fn times_bound(alloc: Global, machine: &mut Machine, pair: &Pair) -> Result<Option<u32>, Fail> {
    let code = code_of(alloc, pair.file)?;
    let mut times = 0;
    for loads in 0..16 {
        let trial = decide_turning(alloc, machine, &code, pair.file, pair.goal, loads)?;
        if !agrees(machine, trial, pair) {
            return Ok(None);
        }
        if place_read(machine) == Some(Cell::Small(NUMBER)) {
            times = loads + 1;
        }
    }
    Ok(Some(times))
}

/// The number from 0 of the first pair whose place is not read bound so often, where there is one.
fn wrong_pair(alloc: Global, pairs: &[(Pair, u32)]) -> Result<Option<usize>, Fail> {
    let mut machine = Machine::make(alloc)?;
    for (at, (pair, times)) in pairs.iter().enumerate() {
        if times_bound(alloc, &mut machine, pair)? != Some(*times) {
            return Ok(Some(at));
        }
    }
    Ok(None)
}

/// The same of worked examples that have a variable.
fn wrong_example(alloc: Global, examples: &[Worked]) -> Result<Option<usize>, Fail> {
    let mut machine = Machine::make(alloc)?;
    for (at, worked) in examples.iter().enumerate() {
        let Some((bound, times)) = worked.bound else {
            continue;
        };
        let pair = Pair {
            file: worked.row.file,
            goal: worked.row.goal,
            unbound: worked.row.answer,
            bound,
        };
        if times_bound(alloc, &mut machine, &pair)? != Some(times) {
            return Ok(Some(at));
        }
    }
    Ok(None)
}

/// With each pair, in how many of the trials the place is read bound: those in which it is bound after few loads. It is the fourth word
/// that a call with one argument reads: the procedure, the number of arguments and the argument come first. The assignment reads it
/// after seven others.
const PAIRS: &[(Pair, u32)] = &[
    (
        Pair {
            file: "p(1). p(2).",
            goal: "p(X?)",
            unbound: Answer::Waits(&[PLACE]),
            bound: Answer::Commits(Commit {
                clause: 2,
                binds: &[],
                pieces: &[],
                children: 0,
            }),
        },
        4,
    ),
    (
        Pair {
            file: "p(X) :- X > 2 | true. p(X) :- otherwise | true.",
            goal: "p(X)",
            unbound: Answer::Waits(&[PLACE]),
            bound: Answer::Commits(Commit {
                clause: 2,
                binds: &[],
                pieces: &[&[Cell::Unbound(0), Cell::Ref(PLACE)], TRUE],
                children: 1,
            }),
        },
        4,
    ),
    (
        Pair {
            file: "p(a).",
            goal: "X := 1 + 2",
            unbound: Answer::Commits(Commit {
                clause: 0,
                binds: &[(PLACE, Cell::Small(3))],
                pieces: &[],
                children: 0,
            }),
            bound: Answer::Fails,
        },
        8,
    ),
    (
        Pair {
            file: "p(a).",
            goal: "X := 1 + 1",
            unbound: Answer::Commits(Commit {
                clause: 0,
                binds: &[(PLACE, Cell::Small(2))],
                pieces: &[],
                children: 0,
            }),
            bound: Answer::Commits(NOTHING),
        },
        8,
    ),
    // the place is handed on unread
    (
        Pair {
            file: "p(X,a).",
            goal: "p(X?,a)",
            unbound: Answer::Commits(Commit {
                clause: 1,
                binds: &[],
                pieces: &[&[Cell::Unbound(0), Cell::RoRef(PLACE)]],
                children: 0,
            }),
            bound: Answer::Commits(Commit {
                clause: 1,
                binds: &[],
                pieces: &[&[Cell::Unbound(0), Cell::RoRef(PLACE)]],
                children: 0,
            }),
        },
        0,
    ),
];

#[test]
fn what_changes_is_decided_as_it_was_read(rt: HostRuntime) -> Result<(), Fail> {
    assert_eq!(rt; wrong_pair(rt.alloc(), PAIRS)?, None);
    Ok(())
}

#[test]
fn worked_examples_are_decided_as_they_were_read(rt: HostRuntime) -> Result<(), Fail> {
    assert_eq!(rt; wrong_example(rt.alloc(), WORKED)?, None);
    Ok(())
}
