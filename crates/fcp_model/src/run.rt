use crate::Seq;

/// A variable at run time. `_n.k` is variable k of the clause by which entry n committed; with n = 0 it is one of the goal's.
#[derive(Clone, Copy, Debug, PartialEq, Eq, PartialOrd, Ord, Hash)]
pub struct Place {
    /// The entry's number, from 1, or 0 for the goal.
    pub entry: u32,
    /// The variable's number, from 1.
    pub number: u32,
}

/// A process. `#n.k` is made of item k of the body by which entry n committed; with n = 0 it is one of the goal's.
#[derive(Clone, Copy, Debug, PartialEq, Eq, PartialOrd, Ord, Hash)]
pub struct Proc {
    /// The entry's number, from 1, or 0 for the goal.
    pub entry: u32,
    /// The item's number, from 1.
    pub number: u32,
}

/// The most that all entries of a run may have together.
#[derive(Clone, Copy, Debug, PartialEq, Eq)]
pub struct Limits {
    /// Commits alone.
    pub commits: u32,
    /// Commits, hangs and fails.
    pub moves: u32,
    /// The measure of an entry's use of memory, as docs/FORMATS.md counts it.
    pub cells: u32,
}

/// What a control asks for.
#[derive(Clone, Copy, Debug, PartialEq, Eq)]
pub enum Act {
    Snapshot,
    Suspend,
    Resume,
    Abort,
}

/// An act that is asked for beforehand.
#[derive(Clone, Copy, Debug, PartialEq, Eq)]
pub struct Control {
    /// How many moves the run has made when it is due.
    pub after: u32,
    pub act: Act,
}

/// An entry of a log. Entry n, from 1, stands at position n - 1.
#[derive(Clone, Copy, Debug, PartialEq, Eq)]
pub enum Entry {
    /// A process is replaced by the body of a clause of its procedure, numbered from 1, or ends as a built-in process: clause 0.
    Commit { process: Proc, clause: u32 },
    /// A process begins to wait.
    Hang { process: Proc },
    /// A process fails, and the run with it.
    Fail { process: Proc },
    Snapshot,
    Suspend,
    Resume,
    Abort,
}

/// How a run ended.
#[derive(Clone, Copy, Debug, PartialEq, Eq)]
pub enum Outcome {
    /// The last entry is a fail.
    Failed,
    /// The last entry is an abort.
    Aborted,
    /// A control suspended the run.
    Held,
    /// Every process is finished.
    Terminated,
    /// A process is not finished, and none is ready.
    Suspended,
    /// The commits or the moves are at their limit.
    Budget,
    /// Each ready process's entry has more cells than are left.
    Full,
}

/// A run's log with its outcome, and how many of the controls it made.
#[derive(Drop)]
pub struct Run {
    pub log: Seq<Entry>,
    pub outcome: Outcome,
    /// How many controls were made, from the first on.
    pub reached: u32,
}
