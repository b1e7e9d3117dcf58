//! Worked examples of the language: how the first process of each goal is decided, and how where its first variable was bound before.
use crate::answers::{
    Answer, Commit, NEW, NOTHING, PLACE_2, PLACE_3, PLACE_4, PLACE_5, Row, TRUE, is_decided,
};
use fcp_model::{Sym, UNIFY_PROCEDURE};
use heap_words::{Cell, OWN, Stand};
use std::alloc::Global;
use std::test::Fail;
use trial_machine::Machine;

/// A worked example. Where its goal has a variable, also how it is decided if another writer has bound the first one to 2, and how
/// many words are loaded up to that variable's own, or 0 where it is not loaded.
#[derive(Clone, Copy)]
pub(crate) struct Worked<'a> {
    pub(crate) row: Row<'a>,
    pub(crate) bound: Option<(Answer<'a>, u32)>,
}

/// A module's first string has the number 9, since the names of tests come before it; clause variables have none. The goal's k-th
/// variable has its name at 2k - 1 and its word at 2k. Then come the parts of the first item's terms, and then its process: its
/// status and name, the procedure and the number of arguments, and the arguments.
pub(crate) const WORKED: &[Worked] = &[
    // a fact binds
    Worked {
        row: Row {
            file: "p(a).",
            goal: "p(X)",
            answer: Answer::Commits(Commit {
                clause: 1,
                binds: &[(2, Cell::Str(Sym(10)))],
                pieces: &[],
                children: 0,
            }),
            reads: &[5, 6, 7, 2],
        },
        bound: Some((Answer::Fails, 4)),
    },
    // a read-only variable is not bound
    Worked {
        row: Row {
            file: "p(a).",
            goal: "p(X?)",
            answer: Answer::Waits(&[2]),
            reads: &[5, 6, 7, 2],
        },
        bound: Some((Answer::Fails, 4)),
    },
    Worked {
        row: Row {
            file: "p(a). c(a).",
            goal: "c(X?), p(X)",
            answer: Answer::Waits(&[2]),
            reads: &[5, 6, 7, 2],
        },
        bound: Some((Answer::Fails, 4)),
    },
    // a process that comes later will fail
    Worked {
        row: Row {
            file: "p(a). r(b).",
            goal: "p(X), r(X)",
            answer: Answer::Commits(Commit {
                clause: 1,
                binds: &[(2, Cell::Str(Sym(10)))],
                pieces: &[],
                children: 0,
            }),
            reads: &[5, 6, 7, 2],
        },
        bound: Some((Answer::Fails, 4)),
    },
    // a later pair sees what an earlier one bound
    Worked {
        row: Row {
            file: "q(a,a).",
            goal: "q(X,X?)",
            answer: Answer::Commits(Commit {
                clause: 1,
                binds: &[(2, Cell::Str(Sym(10)))],
                pieces: &[],
                children: 0,
            }),
            reads: &[5, 6, 7, 8, 2],
        },
        bound: Some((Answer::Fails, 5)),
    },
    // the first pair that waits decides
    Worked {
        row: Row {
            file: "q(a,a).",
            goal: "q(X?,X)",
            answer: Answer::Waits(&[2]),
            reads: &[5, 6, 7, 8, 2],
        },
        bound: Some((Answer::Fails, 5)),
    },
    // the place would occur in its own value; bound to a number it is no tuple
    Worked {
        row: Row {
            file: "e(Y,Y).",
            goal: "e(X,f(X))",
            answer: Answer::Fails,
            reads: &[8, 9, 10, 11, 2, 3, 4, 5],
        },
        bound: Some((Answer::Fails, 5)),
    },
    // a head's own place is read-only: nobody can bind it
    Worked {
        row: Row {
            file: "h(X?).",
            goal: "h(a)",
            answer: Answer::Waits(&[]),
            reads: &[3, 4, 5],
        },
        bound: None,
    },
    // what a try bound counts among its reads
    Worked {
        row: Row {
            file: "p(b,a). w(c).",
            goal: "p(Z,X?), w(Z)",
            answer: Answer::Waits(&[2, 4]),
            reads: &[7, 8, 9, 10, 2, 4],
        },
        bound: Some((Answer::Fails, 5)),
    },
    // `otherwise` waits behind a clause that waits, and holds behind one that fails
    Worked {
        row: Row {
            file: "o(a,1). o(X,2) :- otherwise | true. b(c).",
            goal: "o(X?,R), b(X)",
            answer: Answer::Waits(&[2, 4]),
            reads: &[7, 8, 9, 10, 2, 4],
        },
        bound: Some((
            Answer::Commits(Commit {
                clause: 2,
                binds: &[(4, Cell::Small(2))],
                pieces: &[&[Cell::Unbound(0), Cell::RoRef(2)], TRUE],
                children: 1,
            }),
            5,
        )),
    },
    // `unknown` holds of a variable that is not bound
    Worked {
        row: Row {
            file: "u(X) :- unknown(X) | true. w(a).",
            goal: "u(X), w(X)",
            answer: Answer::Commits(Commit {
                clause: 1,
                binds: &[],
                pieces: &[&[Cell::Unbound(0), Cell::Ref(2)], TRUE],
                children: 1,
            }),
            reads: &[5, 6, 7, 2],
        },
        bound: Some((Answer::Fails, 4)),
    },
    Worked {
        row: Row {
            file: "u(X) :- unknown(X) | true. w(a).",
            goal: "w(X), u(X)",
            answer: Answer::Commits(Commit {
                clause: 1,
                binds: &[(2, Cell::Str(Sym(11)))],
                pieces: &[],
                children: 0,
            }),
            reads: &[5, 6, 7, 2],
        },
        bound: Some((Answer::Fails, 4)),
    },
    // the younger place is bound to the older one; their names tell their ages
    Worked {
        row: Row {
            file: "",
            goal: "X = Y",
            answer: Answer::Commits(Commit {
                clause: 0,
                binds: &[(4, Cell::Ref(2))],
                pieces: &[],
                children: 0,
            }),
            reads: &[7, 8, 9, 10, 2, 4, 1, 3],
        },
        bound: Some((
            Answer::Commits(Commit {
                clause: 0,
                binds: &[(4, Cell::Small(2))],
                pieces: &[],
                children: 0,
            }),
            5,
        )),
    },
    // the one that may be bound is bound, though it is the older one
    Worked {
        row: Row {
            file: "",
            goal: "X = Y?",
            answer: Answer::Commits(Commit {
                clause: 0,
                binds: &[(2, Cell::RoRef(4))],
                pieces: &[],
                children: 0,
            }),
            reads: &[7, 8, 9, 10, 2, 4],
        },
        bound: Some((Answer::Waits(&[4]), 5)),
    },
    Worked {
        row: Row {
            file: "",
            goal: "X? = Y?",
            answer: Answer::Waits(&[2, 4]),
            reads: &[7, 8, 9, 10, 2, 4],
        },
        bound: Some((Answer::Waits(&[4]), 5)),
    },
    // a variable is itself
    Worked {
        row: Row {
            file: "",
            goal: "X = X?",
            answer: Answer::Commits(NOTHING),
            reads: &[5, 6, 7, 8, 2],
        },
        bound: Some((Answer::Commits(NOTHING), 5)),
    },
    // each try's places count, but not those behind a pair that clashed
    Worked {
        row: Row {
            file: "d(a,Z). d(Z,b). s(a,b).",
            goal: "d(X?,Y?), s(X,Y)",
            answer: Answer::Waits(&[2, 4]),
            reads: &[7, 8, 9, 10, 2, 4],
        },
        bound: Some((Answer::Waits(&[4]), 5)),
    },
    // a comparison that fails, and one that waits
    Worked {
        row: Row {
            file: "m(X) :- X? =< 3 | true.",
            goal: "m(4)",
            answer: Answer::Fails,
            reads: &[3, 4, 5],
        },
        bound: None,
    },
    Worked {
        row: Row {
            file: "m(X) :- X? =< 3 | true.",
            goal: "m(X), X = 2",
            answer: Answer::Waits(&[2]),
            reads: &[5, 6, 7, 2],
        },
        bound: Some((
            Answer::Commits(Commit {
                clause: 1,
                binds: &[],
                pieces: &[&[Cell::Unbound(0), Cell::Ref(2)], TRUE],
                children: 1,
            }),
            4,
        )),
    },
    // two generators, a merge and a sum: nothing but the arguments is read
    Worked {
        row: Row {
            file: "-module(grow).
-export([main/2]).
main(N,S) :- gen(1,N,A), gen(1,N,B), merge(A?,B?,C), sum(C?,0,S).
gen(I,N,[I|R]) :- I =< N | J := I + 1, gen(J?,N,R).
gen(I,N,[]) :- I > N | true.
merge([X|Xs],Ys,[X|Zs]) :- merge(Xs?,Ys,Zs).
merge(Xs,[Y|Ys],[Y|Zs]) :- merge(Xs,Ys?,Zs).
merge([],[],[]).
sum([X|Xs],A,S) :- B := A + X, sum(Xs?,B?,S).
sum([],A,A).
",
            goal: "main(1,S)",
            answer: Answer::Commits(MAIN),
            reads: &[5, 6, 7, 8],
        },
        bound: Some((Answer::Commits(MAIN), 0)),
    },
    // a process without arguments calls itself
    Worked {
        row: Row {
            file: "loop :- loop.",
            goal: "loop",
            answer: Answer::Commits(Commit {
                clause: 1,
                binds: &[],
                pieces: &[&[
                    Cell::Status(Stand::Ready),
                    Cell::Unbound(0),
                    Cell::Raw(0),
                    Cell::Raw(0),
                ]],
                children: 1,
            }),
            reads: &[3, 4],
        },
        bound: None,
    },
    // a pair is laid before the process that unifies it
    Worked {
        row: Row {
            file: "g(X) :- X = [a|Y], g(Y).",
            goal: "g(L)",
            answer: Answer::Commits(GROWS),
            reads: &[5, 6, 7],
        },
        bound: Some((Answer::Commits(GROWS), 0)),
    },
    // the remainder of the least number, which has a word of its own
    Worked {
        row: Row {
            file: "",
            goal: "X := -9223372036854775808 mod -1",
            answer: Answer::Commits(Commit {
                clause: 0,
                binds: &[(2, Cell::Small(0))],
                pieces: &[],
                children: 0,
            }),
            reads: &[9, 10, 12, 3, 4, 5, 6, 11, 2],
        },
        bound: Some((Answer::Fails, 9)),
    },
    // the search for the place in its value reads each variable of the value
    Worked {
        row: Row {
            file: "",
            goal: "X = f(Y,[1,2|Z],{a}), W = \"it's\"",
            answer: Answer::Commits(Commit {
                clause: 0,
                binds: &[(2, Cell::Tuple(9))],
                pieces: &[],
                children: 0,
            }),
            reads: &[
                22, 23, 24, 25, 2, 9, 10, 11, 4, 12, 14, 15, 16, 17, 6, 13, 18, 19,
            ],
        },
        bound: Some((Answer::Fails, 5)),
    },
];

/// What the main process of two generators, a merge and a sum makes.
const MAIN: Commit = Commit {
    clause: 1,
    binds: &[],
    pieces: &[
        &[Cell::Unbound(0), Cell::Small(1)],
        &[Cell::Unbound(0), Cell::Ref(2)],
        NEW,
        NEW,
        NEW,
        &[
            Cell::Status(Stand::Ready),
            Cell::Unbound(0),
            Cell::Raw(1),
            Cell::Raw(3),
            Cell::Small(1),
            Cell::Small(1),
            Cell::Ref(PLACE_3),
        ],
        &[
            Cell::Status(Stand::Ready),
            Cell::Unbound(0),
            Cell::Raw(1),
            Cell::Raw(3),
            Cell::Small(1),
            Cell::Small(1),
            Cell::Ref(PLACE_4),
        ],
        &[
            Cell::Status(Stand::Ready),
            Cell::Unbound(0),
            Cell::Raw(2),
            Cell::Raw(3),
            Cell::RoRef(PLACE_3),
            Cell::RoRef(PLACE_4),
            Cell::Ref(PLACE_5),
        ],
        &[
            Cell::Status(Stand::Ready),
            Cell::Unbound(0),
            Cell::Raw(3),
            Cell::Raw(3),
            Cell::RoRef(PLACE_5),
            Cell::Small(0),
            Cell::Ref(2),
        ],
    ],
    children: 4,
};

/// What a process makes that binds a list's next pair and goes on with its rest.
const GROWS: Commit = Commit {
    clause: 1,
    binds: &[],
    pieces: &[
        &[Cell::Unbound(0), Cell::Ref(2)],
        NEW,
        &[Cell::Str(Sym(10)), Cell::Ref(PLACE_2)],
        &[
            Cell::Status(Stand::Ready),
            Cell::Unbound(0),
            Cell::Raw(UNIFY_PROCEDURE),
            Cell::Raw(2),
            Cell::Ref(2),
            Cell::Cons(OWN + 4),
        ],
        &[
            Cell::Status(Stand::Ready),
            Cell::Unbound(0),
            Cell::Raw(0),
            Cell::Raw(1),
            Cell::Ref(PLACE_2),
        ],
    ],
    children: 2,
};

/// The number from 0 of the first example that is not decided as it says, where one is not. One machine decides them all.
fn wrong_example(alloc: Global, examples: &[Worked]) -> Result<Option<usize>, Fail> {
    let mut machine = Machine::make(alloc)?;
    for (at, worked) in examples.iter().enumerate() {
        if !is_decided(alloc, &mut machine, &worked.row)? {
            return Ok(Some(at));
        }
    }
    Ok(None)
}

#[test]
fn worked_examples_are_decided(rt: HostRuntime) -> Result<(), Fail> {
    assert_eq!(rt; wrong_example(rt.alloc(), WORKED)?, None);
    Ok(())
}
