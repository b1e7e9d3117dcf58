//! Trials of code that is thrown: each is decided, or the answer is that memory ran out, and the machine works on as before.
ghost use Rattle.std.specs.Prelude.{◌<◌};

use crate::answers::{Answer, Commit, hands_over};
use crate::made::made_code;
use crate::prepared::{code_of, decide};
use crate::uncompiled::{MODULE, SLOTS, answer};
use fcp_model::Sym;
use heap_words::Cell;
use machine_code::{Code, Instr};
use std::alloc::Global;
use std::test::Fail;
use trial_machine::{Machine, Trial};

/// Numbers that look thrown, the same in each run.
#[derive(Drop)]
struct Dice {
    state: u64,
}

impl Dice {
    /// The next number, from 0 to one less than the sides.
    fn roll(&mut self, sides: u32) -> u32
        requires { 0 < sides }
        ensures { result < sides }
    {
        self.state = self
            .state
            .wrapping_mul(6364136223846793005)
            .wrapping_add(1442695040888963407);
        (self.state >> 33) as u32 % sides
    }

    /// A slot's number.
    fn slot(&mut self) -> u32 {
        self.roll(5)
    }

    /// A position behind this one.
    fn behind(&mut self, at: u32) -> u32 {
        at.saturating_add(1).saturating_add(self.roll(4))
    }

    /// An instruction for a position.
    fn instr(&mut self, at: u32) -> Instr {
        match self.roll(12) {
            0 => Instr::Try {
                clause: 1 + self.roll(3),
                next: self.behind(at),
            },
            1 => Instr::GetCons {
                slot: self.slot(),
                left: self.slot(),
                right: self.slot(),
                put: self.behind(at),
            },
            2 => Instr::GetTuple {
                slot: self.slot(),
                first: self.slot(),
                parts: self.roll(4) as u8,
                put: self.behind(at),
            },
            3 => Instr::PutVar {
                slot: self.slot(),
                var: self.roll(4) as u8,
                ro: self.roll(2) == 0,
            },
            4 => Instr::PutWord {
                slot: self.slot(),
                word: u64::from(self.roll(256)),
            },
            5 => Instr::PutCons {
                slot: self.slot(),
                left: self.slot(),
                right: self.slot(),
            },
            6 => Instr::PutTuple {
                slot: self.slot(),
                first: self.slot(),
                parts: self.roll(4) as u8,
                op: None,
            },
            7 => Instr::Jump {
                to: self.behind(at),
            },
            8 => Instr::Spawn {
                procedure: self.roll(3),
                first: self.slot(),
                parts: self.roll(4) as u8,
            },
            9 => Instr::Commit,
            _ => Instr::Unify {
                left: self.slot(),
                right: self.slot(),
            },
        }
    }
}

/// A clause's begin, and what is thrown behind it, up to where the clause is left for.
fn thrown(alloc: Global, dice: &mut Dice) -> Result<Vec<Instr>, Fail> {
    let mut instrs = Vec::new(alloc);
    instrs.push(Instr::Try {
        clause: 1,
        next: 13,
    })?;
    for at in 1..13 {
        instrs.push(dice.instr(at))?;
    }
    Ok(instrs)
}

/// Whether a machine decides as ever: a fact binds.
fn is_as_ever(alloc: Global, machine: &mut Machine, fact: &Code) -> Result<bool, Fail> {
    let trial = decide(alloc, machine, fact, MODULE, "p(X)", 1)?;
    let bound = Commit {
        clause: 1,
        binds: &[(2, Cell::Str(Sym(10)))],
        pieces: &[],
        children: 0,
    };
    Ok(hands_over(machine, trial, &Answer::Commits(bound)))
}

/// How often thrown code was answered.
#[derive(Clone, Copy)]
struct Counts {
    commits: u32,
    waits: u32,
    fails: u32,
    undecided: u32,
}

impl Counts {
    fn count(&mut self, trial: Option<Trial>) {
        let counted = match trial {
            Some(Trial::Commit) => &mut self.commits,
            Some(Trial::Wait) => &mut self.waits,
            Some(Trial::Fails) => &mut self.fails,
            None => &mut self.undecided,
        };
        *counted = counted.saturating_add(1);
    }
}

/// The goals for thrown code.
const GOALS: &[&str] = &["p(X)", "p(X?)", "p(a)", "p([a|X])", "p(f(X?,b))"];

/// How so many codes that were thrown are answered; `None` where the machine does not decide as ever behind one. One machine decides
/// them all.
fn answers_thrown(alloc: Global, codes: u32) -> Result<Option<Counts>, Fail> {
    let mut dice = Dice { state: 1 };
    let mut machine = Machine::make(alloc)?;
    let fact = code_of(alloc, MODULE)?;
    let mut counts = Counts {
        commits: 0,
        waits: 0,
        fails: 0,
        undecided: 0,
    };
    for _ in 0..codes {
        let instrs = thrown(alloc, &mut dice)?;
        let Some(code) = made_code(alloc, instrs.as_slice(), &[2, 1, 0], SLOTS)? else {
            continue;
        };
        for goal in GOALS {
            counts.count(answer(alloc, &mut machine, &code, goal)?);
            if !is_as_ever(alloc, &mut machine, &fact)? {
                return Ok(None);
            }
        }
    }
    Ok(Some(counts))
}

#[test]
fn thrown_code_is_answered(rt: HostRuntime) -> Result<(), Fail> {
    let counts = answers_thrown(rt.alloc(), 300)?.ok_or("a machine that broke")?;
    assert!(rt; counts.commits > 0);
    assert!(rt; counts.waits > 0);
    assert!(rt; counts.fails > 0);
    assert!(rt; counts.undecided > 0);
    Ok(())
}
