//! What is run, and a run that ended.

use fcp_model::{Control, Entry, Limits, Loaded, LoadedGoal, Outcome};
use machine_code::Code;

/// What is run: a goal over a module, by the module's code, within limits, with controls.
#[derive(Clone, Copy)]
pub struct Task<'a> {
    pub loaded: &'a Loaded,
    pub goal: &'a LoadedGoal,
    pub code: &'a Code,
    pub limits: Limits,
    pub controls: &'a [Control],
}

/// A run that ended.
#[derive(Drop)]
pub struct Run {
    /// Its entries, of which the first has the number 1.
    pub log: Vec<Entry>,
    /// How it ended.
    pub outcome: Outcome,
    /// How many of the controls were made, from the first one on.
    pub reached: u32,
}
