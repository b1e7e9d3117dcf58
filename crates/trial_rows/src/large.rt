//! Trials of large clauses and procedures.
use crate::answers::{Answer, Commit, hands_over};
use crate::prepared::{code_of, decide};
use fcp_model::Sym;
use heap_words::{Cell, OWN, decode};
use std::alloc::{AllocError, Global};
use std::test::Fail;
use trial_machine::{Machine, Trial};

/// The second string of a module: the first one, 9, is its procedure's name.
const A: Cell = Cell::Str(Sym(10));

/// The facts `p(1).` to `p(1000).`
fn thousand_clauses(alloc: Global) -> Result<String, AllocError> {
    let mut text = String::new(alloc);
    for number in 1..1001 {
        write!(text, "p({number}).")?;
    }
    Ok(text)
}

/// Goals of these, and how they are decided.
const NUMBERS: &[(&str, Answer)] = &[
    (
        "p(1000)",
        Answer::Commits(Commit {
            clause: 1000,
            binds: &[],
            pieces: &[],
            children: 0,
        }),
    ),
    ("p(1001)", Answer::Fails),
    ("p(X?)", Answer::Waits(&[2])),
];

/// Whether all of these are decided so.
fn decides_all(alloc: Global, goals: &[(&str, Answer)]) -> Result<bool, Fail> {
    let mut machine = Machine::make(alloc)?;
    let text = thousand_clauses(alloc)?;
    let code = code_of(alloc, text.as_str())?;
    for (goal, answer) in goals {
        let trial = decide(alloc, &mut machine, &code, text.as_str(), goal, 1)?;
        if !hands_over(&machine, trial, answer) {
            return Ok(false);
        }
    }
    Ok(true)
}

#[test]
fn the_last_of_a_thousand_clauses_commits(rt: HostRuntime) -> Result<(), Fail> {
    assert!(rt; decides_all(rt.alloc(), NUMBERS)?);
    Ok(())
}

/// `p` of a list of 100,000 elements, the last of which is given.
fn long(alloc: Global, last: &str) -> Result<String, AllocError> {
    let mut text = String::from_str(alloc, "p([")?;
    for _ in 1..100_000 {
        text.push_str("a,")?;
    }
    text.push_str(last)?;
    text.push_str("])")?;
    Ok(text)
}

/// The word at an address among those of a commit's pieces.
fn own_word(machine: &Machine, addr: u32) -> Option<u64> {
    let at = addr.checked_sub(OWN)?;
    machine.pieces().get(at as usize).copied()
}

/// How many elements the list of a cell has among a commit's pieces, where each of them is `a`.
fn elements(machine: &Machine, list: Cell) -> Option<u32> {
    let mut rest = list;
    for count in 0..200_000 {
        let Cell::Cons(pair) = rest else {
            return if rest == Cell::Nil { Some(count) } else { None };
        };
        if decode(own_word(machine, pair)?) != Some(A) {
            return None;
        }
        rest = decode(own_word(machine, pair.checked_add(1)?)?)?;
    }
    None
}

/// How the fact of a list of 100,000 elements decides a goal.
fn decided_by_list(alloc: Global, machine: &mut Machine, goal: &str) -> Result<Trial, Fail> {
    let mut clause = long(alloc, "a")?;
    clause.push_str(".")?;
    let code = code_of(alloc, clause.as_str())?;
    decide(alloc, machine, &code, clause.as_str(), goal, 256)
}

/// The list of the head meets that of the goal. So wide a term is put before it is opened: each of its pairs has a piece.
#[test]
fn a_long_head_is_met(rt: HostRuntime) -> Result<(), Fail> {
    let mut machine = Machine::make(rt.alloc())?;
    let same = long(rt.alloc(), "a")?;
    assert!(rt; decided_by_list(rt.alloc(), &mut machine, same.as_str())? == Trial::Commit);
    assert_eq!(rt; machine.clause(), 1);
    assert_eq!(rt; machine.binds().len(), 0);
    assert_eq!(rt; machine.sizes().len(), 100_000);
    assert_eq!(rt; machine.children(), 0);
    Ok(())
}

#[test]
fn a_long_head_clashes_at_its_end(rt: HostRuntime) -> Result<(), Fail> {
    let mut machine = Machine::make(rt.alloc())?;
    let other = long(rt.alloc(), "b")?;
    assert!(rt; decided_by_list(rt.alloc(), &mut machine, other.as_str())? == Trial::Fails);
    Ok(())
}

#[test]
fn a_long_head_is_built(rt: HostRuntime) -> Result<(), Fail> {
    let mut machine = Machine::make(rt.alloc())?;
    assert!(rt; decided_by_list(rt.alloc(), &mut machine, "p(X)")? == Trial::Commit);
    assert_eq!(rt; machine.sizes().len(), 100_000);
    let [(place, word)] = machine.binds() else {
        return Err("not one binding".into());
    };
    assert_eq!(rt; *place, 2);
    let list = decode(*word).ok_or("no cell")?;
    assert_eq!(rt; elements(&machine, list), Some(100_000));
    Ok(())
}
