// What a seat knows of a store. These are types of proofs: no value of a view is ever made.
use crate::fits::Fits;
use crate::quota::Quota;
use std::collections::LinkedList;
use std::marker::PhantomData;
use std::snapshot::Snapshot;

/// An entry with its number.
#[derive(Drop)]
pub struct Numbered<E> {
    pub number: u32,
    pub entry: E,
}

/// What a step found.
pub enum Look {
    /// At an address a word; whether the address was known, and whether its page was held.
    Cell(u64, u64, bool, bool),
    /// At a page its word.
    Page(u64, u64),
    /// The clock.
    Clock(u64),
}

/// The pages that a seat holds, the words that it knows to stand there, and the words that it has still to publish.
pub struct Grip {
    pub held: LinkedList<u64>,
    pub known: LinkedList<(u64, u64)>,
    pub due: LinkedList<(u64, u64)>,
}

/// What a seat may still spend, and its share of the store.
pub struct Purse {
    pub commits: u64,
    pub moves: u64,
    pub cells: u64,
    pub extra: u64,
    pub rights: u64,
}

/// What a seat knows, and what it has made.
pub struct View<E> {
    pub entries: LinkedList<Numbered<E>>,
    /// The greatest clock that it saw.
    pub front: u64,
    /// What its steps found, the last one first.
    pub looks: LinkedList<Look>,
    pub grip: Grip,
    pub purse: Purse,
}

/// What the store was made with.
#[derive(Drop)]
pub struct Given {
    pub pages: u64,
    pub quota: Quota,
    pub extra: u32,
    pub words: Snapshot<Vec<u64>>,
}

/// The table has no slots.
#[derive(Drop)]
pub struct Nothing;

/// Names the rule of a store with entries of one kind.
pub struct Law<F> {
    of: PhantomData<F>,
}
