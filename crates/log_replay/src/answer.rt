//! What a step answers.

/// Why an entry is no next one.
#[derive(Clone, Copy, Debug, PartialEq, Eq)]
pub enum Why {
    /// The run does not allow it now: its process is not Ready, or the mode of the run is another one.
    State,
    /// The run allows it, and something else is decided for its process.
    Answer,
}

/// How a step ended.
#[derive(Clone, Copy, Debug, PartialEq, Eq)]
pub enum Stepped {
    /// The entry is the next one, and was made.
    Done,
    /// The entry is no next one. Nothing was made.
    Wrong(Why),
    /// The entry would be the next one, and has more cells than are left. Nothing was made.
    Spent { needed: u32, left: u32 },
    /// Memory ran out, or the words found no room. The replay is good only for dropping.
    NoMemory,
}
