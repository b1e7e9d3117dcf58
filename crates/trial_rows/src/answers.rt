//! What a trial is to hand over, and whether it does.
use crate::prepared::{code_of, decide};
use fcp_model::TRUE_PROCEDURE;
use heap_words::{Cell, OWN, Stand, decode};
use std::alloc::Global;
use std::test::Fail;
use trial_machine::{Machine, Trial};

/// What a commit hands over: the clause, each binding with its address, the pieces, and how many of them are children.
#[derive(Clone, Copy)]
pub(crate) struct Commit<'a> {
    pub(crate) clause: u32,
    pub(crate) binds: &'a [(u32, Cell)],
    pub(crate) pieces: &'a [&'a [Cell]],
    pub(crate) children: u32,
}

/// How a process is decided.
#[derive(Clone, Copy)]
pub(crate) enum Answer<'a> {
    Commits(Commit<'a>),
    /// For the places at these addresses.
    Waits(&'a [u32]),
    Fails,
}

/// A trial of the first process of a goal: the module, the goal, how it is decided, and the addresses of the words that it reads.
#[derive(Clone, Copy)]
pub(crate) struct Row<'a> {
    pub(crate) file: &'a str,
    pub(crate) goal: &'a str,
    pub(crate) answer: Answer<'a>,
    pub(crate) reads: &'a [u32],
}

/// The places of a clause's variables, by their numbers: they are the first pieces, of two words each.
pub(crate) const PLACE_1: u32 = OWN + 1;

pub(crate) const PLACE_2: u32 = OWN + 3;

pub(crate) const PLACE_3: u32 = OWN + 5;

pub(crate) const PLACE_4: u32 = OWN + 7;

pub(crate) const PLACE_5: u32 = OWN + 9;

/// The name and the word of a new place.
pub(crate) const NEW: &[Cell] = &[Cell::Unbound(0), Cell::Unbound(0)];

/// A child that calls `true`.
pub(crate) const TRUE: &[Cell] = &[
    Cell::Status(Stand::Ready),
    Cell::Unbound(0),
    Cell::Raw(TRUE_PROCEDURE),
    Cell::Raw(0),
];

/// A built-in process commits, and binds and makes nothing.
pub(crate) const NOTHING: Commit = Commit {
    clause: 0,
    binds: &[],
    pieces: &[],
    children: 0,
};

fn are_bound(binds: &[(u32, u64)], cells: &[(u32, Cell)]) -> bool {
    if binds.len() != cells.len() {
        return false;
    }
    for (bind, cell) in binds.iter().zip(cells) {
        if bind.0 != cell.0 || decode(bind.1) != Some(cell.1) {
            return false;
        }
    }
    true
}

/// Whether words that are cut into pieces of these sizes are those of the cells.
fn are_pieces(words: &[u64], sizes: &[u32], pieces: &[&[Cell]]) -> bool {
    if sizes.len() != pieces.len() {
        return false;
    }
    let mut at = 0;
    for (size, piece) in sizes.iter().zip(pieces) {
        if *size as usize != piece.len() {
            return false;
        }
        for cell in piece.iter() {
            let Some(word) = words.get(at) else {
                return false;
            };
            if decode(*word) != Some(*cell) {
                return false;
            }
            at += 1;
        }
    }
    at == words.len()
}

/// Whether these addresses were read, each once, and no others.
fn are_read(reads: &[(u32, u64)], addresses: &[u32]) -> bool {
    if reads.len() != addresses.len() {
        return false;
    }
    for address in addresses {
        if !reads.iter().any(|read| read.0 == *address) {
            return false;
        }
    }
    true
}

/// Whether the machine has decided so, and hands over what the answer says.
pub(crate) fn hands_over(machine: &Machine, trial: Trial, answer: &Answer) -> bool {
    match answer {
        Answer::Commits(commit) => {
            trial == Trial::Commit
                && machine.clause() == commit.clause
                && machine.children() == commit.children
                && are_bound(machine.binds(), commit.binds)
                && are_pieces(machine.pieces(), machine.sizes(), commit.pieces)
        }
        Answer::Waits(places) => trial == Trial::Wait && machine.places() == *places,
        Answer::Fails => trial == Trial::Fails,
    }
}

/// Whether a trial is decided as its row says.
pub(crate) fn is_decided(alloc: Global, machine: &mut Machine, row: &Row) -> Result<bool, Fail> {
    let code = code_of(alloc, row.file)?;
    let trial = decide(alloc, machine, &code, row.file, row.goal, 1)?;
    Ok(hands_over(machine, trial, &row.answer) && are_read(machine.reads(), row.reads))
}

/// The number from 0 of the first row that is not decided as it says, where one is not. One machine decides them all.
pub(crate) fn wrong_row(alloc: Global, rows: &[Row]) -> Result<Option<usize>, Fail> {
    let mut machine = Machine::make(alloc)?;
    for (at, row) in rows.iter().enumerate() {
        if !is_decided(alloc, &mut machine, row)? {
            return Ok(Some(at));
        }
    }
    Ok(None)
}
