//! Trials of code that no compiler makes: it is decided, or the answer is that memory ran out.
use crate::answers::{Answer, Commit, hands_over};
use crate::made::made_code;
use crate::prepared::prepare;
use fcp_model::ArithOp;
use heap_words::{Cell, Stand};
use machine_code::{Code, Instr};
use std::alloc::Global;
use std::test::Fail;
use trial_machine::{Machine, Trial};

/// The module of the goals. Its strings `p` and `a` have the numbers 9 and 10.
pub(crate) const MODULE: &str = "p(a).";

/// How many slots the code of these tests may name.
pub(crate) const SLOTS: u32 = 80;

/// The words of the strings of the numbers 10 and 11.
const A: u64 = 0xa5;

const B: u64 = 0xb5;

/// Behind each code's end.
const END: u32 = 99;

/// Code of a procedure with an argument, how many variables its clauses have, and a goal. The goal's process is decided as the answer
/// says; `None` where the answer is that memory ran out.
#[derive(Clone, Copy)]
struct Made<'a> {
    instrs: &'a [Instr],
    vars: &'a [u8],
    goal: &'a str,
    answer: Option<Answer<'a>>,
}

/// Clause 1 commits, and binds and makes nothing.
const COMMITS: Answer = Answer::Commits(Commit {
    clause: 1,
    binds: &[],
    pieces: &[],
    children: 0,
});

/// The goal's variable is bound to `[]`, and nothing is made.
const EMPTY: Answer = Answer::Commits(Commit {
    clause: 1,
    binds: &[(2, Cell::Nil)],
    pieces: &[],
    children: 0,
});

/// The first clause's try begins, and is left for the end.
const TRY: Instr = Instr::Try {
    clause: 1,
    next: END,
};

/// Code that gives an answer of its own, by what each instruction does.
const DECIDED: &[Made] = &[
    // no clause: all tries fail
    Made {
        instrs: &[],
        vars: &[],
        goal: "p(X)",
        answer: Some(Answer::Fails),
    },
    Made {
        instrs: &[Instr::Jump { to: 4294967295 }],
        vars: &[],
        goal: "p(X)",
        answer: Some(Answer::Fails),
    },
    // the argument is never looked at
    Made {
        instrs: &[TRY, Instr::Commit],
        vars: &[0],
        goal: "p(X)",
        answer: Some(COMMITS),
    },
    // a clause that the procedure lacks
    Made {
        instrs: &[
            Instr::Try {
                clause: 7,
                next: END,
            },
            Instr::Commit,
        ],
        vars: &[0],
        goal: "p(X)",
        answer: Some(Answer::Commits(Commit {
            clause: 7,
            binds: &[],
            pieces: &[],
            children: 0,
        })),
    },
    // one clause jumps into the code of another one
    Made {
        instrs: &[
            Instr::Try { clause: 1, next: 3 },
            Instr::Jump { to: 4 },
            Instr::Commit,
            Instr::Try {
                clause: 2,
                next: END,
            },
            Instr::Commit,
        ],
        vars: &[0, 0],
        goal: "p(X)",
        answer: Some(COMMITS),
    },
    // `otherwise` in the first clause, and behind one that waits
    Made {
        instrs: &[TRY, Instr::Otherwise, Instr::Commit],
        vars: &[0],
        goal: "p(X)",
        answer: Some(COMMITS),
    },
    Made {
        instrs: &[
            Instr::Try { clause: 1, next: 4 },
            Instr::PutWord { slot: 1, word: A },
            Instr::Unify { left: 0, right: 1 },
            Instr::Commit,
            Instr::Try {
                clause: 2,
                next: END,
            },
            Instr::Otherwise,
            Instr::Commit,
        ],
        vars: &[0, 0],
        goal: "p(X?)",
        answer: Some(Answer::Waits(&[2])),
    },
    // the last clause is left for a jump
    Made {
        instrs: &[
            Instr::Try { clause: 1, next: 4 },
            Instr::PutWord { slot: 1, word: B },
            Instr::Unify { left: 0, right: 1 },
            Instr::Commit,
            Instr::Jump { to: 7 },
        ],
        vars: &[0],
        goal: "p(a)",
        answer: Some(Answer::Fails),
    },
    // a slot that holds nothing holds `[]`, and so does one with a word that is no constant
    Made {
        instrs: &[TRY, Instr::Unify { left: 0, right: 5 }, Instr::Commit],
        vars: &[0],
        goal: "p(X)",
        answer: Some(EMPTY),
    },
    Made {
        instrs: &[
            TRY,
            Instr::PutWord {
                slot: 1,
                word: 0x21,
            },
            Instr::Unify { left: 0, right: 1 },
            Instr::Commit,
        ],
        vars: &[0],
        goal: "p(X)",
        answer: Some(EMPTY),
    },
    // an operation is no term: as one it is `[]`
    Made {
        instrs: &[
            TRY,
            Instr::PutTuple {
                slot: 1,
                first: 2,
                parts: 2,
                op: Some(ArithOp::Add),
            },
            Instr::Unify { left: 0, right: 1 },
            Instr::Commit,
        ],
        vars: &[0],
        goal: "p(X)",
        answer: Some(Answer::Commits(Commit {
            clause: 1,
            binds: &[(2, Cell::Nil)],
            pieces: &[&[Cell::Raw(66), Cell::Nil, Cell::Nil]],
            children: 0,
        })),
    },
    // the place of the clause's variable would occur in its own value
    Made {
        instrs: &[
            TRY,
            Instr::PutVar {
                slot: 1,
                var: 1,
                ro: false,
            },
            Instr::PutCons {
                slot: 2,
                left: 1,
                right: 1,
            },
            Instr::Unify { left: 1, right: 2 },
            Instr::Commit,
        ],
        vars: &[1],
        goal: "p(X)",
        answer: Some(Answer::Fails),
    },
    // a child of a procedure that is not there
    Made {
        instrs: &[
            TRY,
            Instr::Spawn {
                procedure: 77,
                first: 0,
                parts: 2,
            },
            Instr::Commit,
        ],
        vars: &[0],
        goal: "p(X)",
        answer: Some(Answer::Commits(Commit {
            clause: 1,
            binds: &[],
            pieces: &[&[
                Cell::Status(Stand::Ready),
                Cell::Unbound(0),
                Cell::Raw(77),
                Cell::Raw(2),
                Cell::Ref(2),
                Cell::Nil,
            ]],
            children: 1,
        })),
    },
];

/// Code whose meaning would have no end, or names what no piece has.
const UNDECIDED: &[Made] = &[
    // a commit without a clause
    Made {
        instrs: &[Instr::Commit],
        vars: &[],
        goal: "p(X)",
        answer: None,
    },
    // a clause without an end
    Made {
        instrs: &[TRY],
        vars: &[0],
        goal: "p(X)",
        answer: None,
    },
    // a clause within a clause
    Made {
        instrs: &[
            TRY,
            Instr::Try {
                clause: 2,
                next: END,
            },
            Instr::Commit,
        ],
        vars: &[0, 0],
        goal: "p(X)",
        answer: None,
    },
    // a clause that is left for another instruction
    Made {
        instrs: &[
            Instr::Try { clause: 1, next: 4 },
            Instr::PutWord { slot: 1, word: B },
            Instr::Unify { left: 0, right: 1 },
            Instr::Commit,
            Instr::Commit,
        ],
        vars: &[0],
        goal: "p(a)",
        answer: None,
    },
    // a variable that the clause lacks
    Made {
        instrs: &[
            TRY,
            Instr::PutVar {
                slot: 1,
                var: 3,
                ro: false,
            },
            Instr::Commit,
        ],
        vars: &[2],
        goal: "p(X)",
        answer: None,
    },
    // both parts of a pair into one slot
    Made {
        instrs: &[
            TRY,
            Instr::GetCons {
                slot: 0,
                left: 1,
                right: 1,
                put: 3,
            },
            Instr::Commit,
        ],
        vars: &[0],
        goal: "p([a])",
        answer: None,
    },
    // more parts than a tuple has
    Made {
        instrs: &[
            TRY,
            Instr::GetTuple {
                slot: 0,
                first: 1,
                parts: 66,
                put: 3,
            },
            Instr::Commit,
        ],
        vars: &[0],
        goal: "p(X)",
        answer: None,
    },
];

/// How a machine decides the first process of a goal by some code; `None` where the answer is that memory ran out.
pub(crate) fn answer(
    alloc: Global,
    machine: &mut Machine,
    code: &Code,
    goal: &str,
) -> Result<Option<Trial>, Fail> {
    let mut laid = prepare(alloc, MODULE, goal, 1)?;
    match machine.trial(code, laid.process, &mut laid.heap) {
        Ok(trial) => Ok(Some(trial)),
        Err(_) => Ok(None),
    }
}

/// Whether the machine decides as code says that was made so.
fn is_answered(alloc: Global, machine: &mut Machine, made: &Made) -> Result<bool, Fail> {
    let Some(code) = made_code(alloc, made.instrs, made.vars, SLOTS)? else {
        return Err("instructions that may not stand so".into());
    };
    let trial = answer(alloc, machine, &code, made.goal)?;
    match (trial, made.answer) {
        (None, None) => Ok(true),
        (Some(trial), Some(answer)) => Ok(hands_over(machine, trial, &answer)),
        _ => Ok(false),
    }
}

/// The number from 0 of the first code that is not answered as it says, where one is not. One machine decides them all.
fn wrong_code(alloc: Global, codes: &[Made]) -> Result<Option<usize>, Fail> {
    let mut machine = Machine::make(alloc)?;
    for (at, made) in codes.iter().enumerate() {
        if !is_answered(alloc, &mut machine, made)? {
            return Ok(Some(at));
        }
    }
    Ok(None)
}

#[test]
fn code_that_no_compiler_makes_is_answered(rt: HostRuntime) -> Result<(), Fail> {
    assert_eq!(rt; wrong_code(rt.alloc(), DECIDED)?, None);
    assert_eq!(rt; wrong_code(rt.alloc(), UNDECIDED)?, None);
    Ok(())
}
