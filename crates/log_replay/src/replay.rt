//! What a replay keeps.

use crate::mode::RunMode;
use crate::ready_table::ReadyTable;
use commit_engine::PlainHall;
use fcp_model::Entry;
use heap_words::Trail;
use move_plans::Planner;
use word_texts::TextLists;

/// The entries of a log so far, made again from a goal: the words of the state behind them, the Ready processes by name, the mode, and what
/// the line of the last entry is read off.
#[derive(Drop)]
pub struct Replay {
    pub(crate) hall: PlainHall,
    pub(crate) planner: Planner,
    pub(crate) ready: ReadyTable,
    pub(crate) mode: RunMode,
    /// The last entry, and how many there are.
    pub(crate) entry: Entry,
    pub(crate) entries: u32,
    /// The addresses of the places that it bound, of the processes that it woke, and of the places for which its process waits.
    pub(crate) bound: Vec<u32>,
    pub(crate) woken: Vec<u32>,
    pub(crate) waits: Vec<u32>,
    pub(crate) lists: TextLists,
    pub(crate) trail: Trail,
}
