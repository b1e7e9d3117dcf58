//! Trials of streams: a merge, and a generator.
use crate::answers::{Answer, Commit, NEW, PLACE_1, PLACE_2, PLACE_3, PLACE_4, Row, wrong_row};
use fcp_model::ASSIGN_PROCEDURE;
use heap_words::{Cell, OWN, Stand};
use std::test::Fail;

/// The procedure of an assignment.
const ASSIGN: Cell = Cell::Raw(ASSIGN_PROCEDURE);

/// What stands for `-` before its operands.
const MINUS: Cell = Cell::Raw(67);

const MERGE: &str = "merge([X|Xs],Ys,[X|Zs]) :- merge(Xs?,Ys,Zs).
merge(Xs,[Y|Ys],[Y|Zs]) :- merge(Xs,Ys?,Zs).
merge([],Ys,Ys).
merge(Xs,[],Xs).
";

const GEN: &str = "gen(N,[N|Xs]) :- N > 0 | M := N - 1, gen(M?,Xs).
gen(0,[]).
";

/// The first clause whose head is met commits. It takes four places, the pair of the output, and one child, which has for a place that took
/// a word that word.
const MERGES: &[Row] = &[
    // both have an element
    Row {
        file: MERGE,
        goal: "merge([1],[2],Z)",
        answer: Answer::Commits(Commit {
            clause: 1,
            binds: &[(2, Cell::Cons(OWN + 8))],
            pieces: &[
                &[Cell::Unbound(0), Cell::Small(1)],
                &[Cell::Unbound(0), Cell::Nil],
                &[Cell::Unbound(0), Cell::Cons(5)],
                NEW,
                &[Cell::Ref(PLACE_1), Cell::Ref(PLACE_4)],
                &[
                    Cell::Status(Stand::Ready),
                    Cell::Unbound(0),
                    Cell::Raw(0),
                    Cell::Raw(3),
                    Cell::Nil,
                    Cell::Cons(5),
                    Cell::Ref(PLACE_4),
                ],
            ],
            children: 1,
        }),
        reads: &[9, 10, 11, 12, 13, 3, 4, 2],
    },
    // the first one is not there yet
    Row {
        file: MERGE,
        goal: "merge(A?,[2],Z)",
        answer: Answer::Commits(Commit {
            clause: 2,
            binds: &[(4, Cell::Cons(OWN + 8))],
            pieces: &[
                &[Cell::Unbound(0), Cell::RoRef(2)],
                &[Cell::Unbound(0), Cell::Small(2)],
                &[Cell::Unbound(0), Cell::Nil],
                NEW,
                &[Cell::Ref(PLACE_2), Cell::Ref(PLACE_4)],
                &[
                    Cell::Status(Stand::Ready),
                    Cell::Unbound(0),
                    Cell::Raw(0),
                    Cell::Raw(3),
                    Cell::RoRef(2),
                    Cell::Nil,
                    Cell::Ref(PLACE_4),
                ],
            ],
            children: 1,
        }),
        reads: &[9, 10, 11, 12, 13, 2, 5, 6, 4],
    },
    // nor is the second one
    Row {
        file: MERGE,
        goal: "merge(A?,B?,Z)",
        answer: Answer::Waits(&[2, 4]),
        reads: &[9, 10, 11, 12, 13, 2, 4],
    },
    // both have ended
    Row {
        file: MERGE,
        goal: "merge([],[],Z)",
        answer: Answer::Commits(Commit {
            clause: 3,
            binds: &[(2, Cell::Nil)],
            pieces: &[&[Cell::Unbound(0), Cell::Nil]],
            children: 0,
        }),
        reads: &[5, 6, 7, 8, 9, 2],
    },
];

#[test]
fn streams_are_merged(rt: HostRuntime) -> Result<(), Fail> {
    assert_eq!(rt; wrong_row(rt.alloc(), MERGES)?, None);
    Ok(())
}

/// The output is bound before the guard is tried, so a generator waits for it too.
const GENERATORS: &[Row] = &[
    Row {
        file: GEN,
        goal: "gen(3,Z)",
        answer: Answer::Commits(Commit {
            clause: 1,
            binds: &[(2, Cell::Cons(OWN + 6))],
            pieces: &[
                &[Cell::Unbound(0), Cell::Small(3)],
                NEW,
                NEW,
                &[Cell::Ref(PLACE_1), Cell::Ref(PLACE_2)],
                &[MINUS, Cell::Ref(PLACE_1), Cell::Small(1)],
                &[
                    Cell::Status(Stand::Ready),
                    Cell::Unbound(0),
                    ASSIGN,
                    Cell::Raw(2),
                    Cell::Ref(PLACE_3),
                    Cell::Tuple(OWN + 8),
                ],
                &[
                    Cell::Status(Stand::Ready),
                    Cell::Unbound(0),
                    Cell::Raw(0),
                    Cell::Raw(2),
                    Cell::RoRef(PLACE_3),
                    Cell::Ref(PLACE_2),
                ],
            ],
            children: 2,
        }),
        reads: &[5, 6, 7, 8, 2],
    },
    Row {
        file: GEN,
        goal: "gen(0,Z)",
        answer: Answer::Commits(Commit {
            clause: 2,
            binds: &[(2, Cell::Nil)],
            pieces: &[],
            children: 0,
        }),
        reads: &[5, 6, 7, 8, 2],
    },
    Row {
        file: GEN,
        goal: "gen(N?,Z)",
        answer: Answer::Waits(&[4, 2]),
        reads: &[7, 8, 9, 10, 4, 2],
    },
    Row {
        file: GEN,
        goal: "gen(a,Z)",
        answer: Answer::Fails,
        reads: &[5, 6, 7, 8, 2],
    },
];

#[test]
fn a_stream_is_generated(rt: HostRuntime) -> Result<(), Fail> {
    assert_eq!(rt; wrong_row(rt.alloc(), GENERATORS)?, None);
    Ok(())
}
