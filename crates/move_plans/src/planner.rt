//! What is made once for all plans. A list keeps its memory from one plan to the next.

use crate::woken::Wakers;
use fcp_model::Entry;
use heap_words::Stand;
use page_layout::{Room, Written};
use trial_machine::Machine;

/// The machine and the lists of a plan.
#[derive(Drop)]
pub struct Planner {
    pub machine: Machine,
    /// The entry that is planned, and its cells.
    pub entry: Entry,
    pub cells: u32,
    /// What it writes.
    pub writes: Vec<Written>,
    /// The addresses of the processes that it makes, in order of the body, and of those that it wakes, by name.
    pub children: Vec<u32>,
    pub woken: Vec<u32>,
    /// The addresses of the places that it binds, in the order in which they were bound, and of those for which the process waits.
    pub bound: Vec<u32>,
    pub waits: Vec<u32>,
    /// The page from which on room is looked for: those before it were nearly full.
    pub open: u32,
    pub(crate) wakers: Wakers,
    pub(crate) rooms: Vec<Room>,
    pub(crate) table: Vec<u32>,
    pub(crate) lists: Vec<(u32, u32)>,
    pub(crate) sizes: Vec<u32>,
}

/// What is planned for a process.
#[derive(Clone, Copy, Debug, PartialEq, Eq)]
pub enum Planned {
    Commits,
    Hangs,
    Fails,
    /// The process is not Ready.
    Gone(Stand),
    /// The process is Ready, and its entry has so many cells, which are more than are left. No room was looked for.
    Large { cells: u32 },
    /// No page has the room that the entry needs.
    Full,
}
