//! Trials of processes that call a procedure.
use crate::answers::{Answer, Commit, NEW, PLACE_2, Row, hands_over, wrong_row};
use crate::prepared::{code_of, decide};
use fcp_model::Sym;
use heap_words::{Cell, Stand};
use std::alloc::Global;
use std::test::Fail;
use trial_machine::Machine;

/// The second string of a module: the reserved ones come before, and a procedure's name is the first one, 9.
const SECOND: Cell = Cell::Str(Sym(10));

/// The goal's first variable has its place at 2, and its second one at 4. Then come pairs and tuples, and then the process: its status
/// and name, the procedure and the number of arguments, and the arguments.
const HEADS: &[Row] = &[
    // each try's places count
    Row {
        file: "p(a,b). p(b,a). p(X,a).",
        goal: "p(X?,Y?)",
        answer: Answer::Waits(&[2, 4]),
        reads: &[7, 8, 9, 10, 2, 4],
    },
    // the place would occur in its own value
    Row {
        file: "p(X,f(X)).",
        goal: "p(Y,Y)",
        answer: Answer::Fails,
        reads: &[5, 6, 7, 8, 2],
    },
    // `otherwise` waits behind a clause that waits, and holds behind one that fails
    Row {
        file: "p(a). p(X) :- otherwise | true.",
        goal: "p(X?)",
        answer: Answer::Waits(&[2]),
        reads: &[5, 6, 7, 2],
    },
    Row {
        file: "p(a). p(X) :- otherwise | p(X).",
        goal: "p(b)",
        answer: Answer::Commits(Commit {
            clause: 2,
            binds: &[],
            pieces: &[
                &[Cell::Unbound(0), Cell::Str(Sym(11))],
                &[
                    Cell::Status(Stand::Ready),
                    Cell::Unbound(0),
                    Cell::Raw(0),
                    Cell::Raw(1),
                    Cell::Str(Sym(11)),
                ],
            ],
            children: 1,
        }),
        reads: &[3, 4, 5],
    },
    // the first clause that succeeds commits, also behind one that waits
    Row {
        file: "p(a). p(a) :- p(a).",
        goal: "p(a)",
        answer: Answer::Commits(Commit {
            clause: 1,
            binds: &[],
            pieces: &[],
            children: 0,
        }),
        reads: &[3, 4, 5],
    },
    Row {
        file: "p(a,X). p(X,a). p(X,Y).",
        goal: "p(X?,a)",
        answer: Answer::Commits(Commit {
            clause: 2,
            binds: &[],
            pieces: &[&[Cell::Unbound(0), Cell::RoRef(2)]],
            children: 0,
        }),
        reads: &[5, 6, 7, 8, 2],
    },
    // two children share a new place
    Row {
        file: "p(X) :- q(X?,Y), q(Y?,a). q(b,c).",
        goal: "p(b)",
        answer: Answer::Commits(Commit {
            clause: 1,
            binds: &[],
            pieces: &[
                &[Cell::Unbound(0), Cell::Str(Sym(12))],
                NEW,
                &[
                    Cell::Status(Stand::Ready),
                    Cell::Unbound(0),
                    Cell::Raw(1),
                    Cell::Raw(2),
                    Cell::Str(Sym(12)),
                    Cell::Ref(PLACE_2),
                ],
                &[
                    Cell::Status(Stand::Ready),
                    Cell::Unbound(0),
                    Cell::Raw(1),
                    Cell::Raw(2),
                    Cell::RoRef(PLACE_2),
                    Cell::Str(Sym(11)),
                ],
            ],
            children: 2,
        }),
        reads: &[3, 4, 5],
    },
    // all clauses clash
    Row {
        file: "p(a). p(f(X)). p([]). p(7).",
        goal: "p(b)",
        answer: Answer::Fails,
        reads: &[3, 4, 5],
    },
];

#[test]
fn heads_are_decided(rt: HostRuntime) -> Result<(), Fail> {
    assert_eq!(rt; wrong_row(rt.alloc(), HEADS)?, None);
    Ok(())
}

/// Modules and goals that call what `p(a).` has not: a procedure with another number of arguments, and a second procedure.
const OTHERS: &[(&str, &str)] = &[("p(a,a).", "p(a,a)"), ("q(a). p(a).", "p(a)")];

/// Whether the code of `p(a).` fails all of these.
fn fails_all(alloc: Global, goals: &[(&str, &str)]) -> Result<bool, Fail> {
    let mut machine = Machine::make(alloc)?;
    let code = code_of(alloc, "p(a).")?;
    for (file, goal) in goals {
        let trial = decide(alloc, &mut machine, &code, file, goal, 1)?;
        if !hands_over(&machine, trial, &Answer::Fails) {
            return Ok(false);
        }
    }
    Ok(true)
}

#[test]
fn other_code_fails(rt: HostRuntime) -> Result<(), Fail> {
    assert!(rt; fails_all(rt.alloc(), OTHERS)?);
    Ok(())
}
