//! What a second look finds.

/// A word that has changed since it was read.
#[derive(Clone, Copy)]
pub(crate) struct Change {
    pub(crate) addr: u32,
    pub(crate) kept: u64,
    pub(crate) found: u64,
}
