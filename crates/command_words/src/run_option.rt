//! The options of `run`.
ghost use Rattle.std.specs.Prelude.{◌≡◌};
ghost use Rattle.command_words.specs.Commands.{default_of, most_of, name_of};

/// An option of `run`.
#[derive(Clone, Copy, Debug, PartialEq, Eq)]
pub enum RunOption {
    /// A limit of the run, by a number.
    Limit(RunLimit),
    /// What is asked of the run beforehand, by a control text.
    Control,
}

/// A limit of a run.
#[derive(Clone, Copy, Debug, PartialEq, Eq)]
pub enum RunLimit {
    /// The most commits.
    Commits,
    /// The most moves.
    Moves,
    /// The most cells.
    Cells,
}

impl RunOption {
    /// The name, which stands behind `--`.
    pub(crate) fn name(self) -> &'static str
        ensures { result.now ≡ name_of self }
    {
        match self {
            RunOption::Limit(RunLimit::Commits) => "commits",
            RunOption::Limit(RunLimit::Moves) => "moves",
            RunOption::Limit(RunLimit::Cells) => "cells",
            RunOption::Control => "control",
        }
    }
}

impl RunLimit {
    /// The number without the option.
    pub(crate) fn default_number(self) -> u32
        ensures { result ≡ default_of self }
    {
        match self {
            RunLimit::Commits | RunLimit::Moves => 1_000_000,
            RunLimit::Cells => 8_000_000,
        }
    }

    /// The greatest number.
    pub(crate) fn most(self) -> u32
        ensures { result ≡ most_of self }
    {
        match self {
            RunLimit::Commits | RunLimit::Moves => 1_000_000,
            RunLimit::Cells => 64_000_000,
        }
    }
}
