//! An entry with the words that it read and writes.

use fcp_model::Entry;
use page_layout::Written;

/// A move of the process at `address`: its entry, the words that it read, each with its address, the words that it writes, and its cells.
#[derive(Drop)]
pub struct WordMove {
    pub entry: Entry,
    pub address: u32,
    pub reads: Vec<(u32, u64)>,
    pub writes: Vec<Written>,
    pub cells: u32,
}
