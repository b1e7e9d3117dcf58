//! The mode of a run.
ghost use Rattle.std.specs.Prelude.{◌≡◌};
ghost use Rattle.fcp_model.specs.States.{is_running};
ghost use Rattle.log_replay.specs.Replays.{mode_of};
ghost use Rattle.log_replay.specs.Parts.{mode_behind};

use fcp_model::Entry;

/// How a run stands.
#[derive(Clone, Copy, Debug, PartialEq, Eq)]
pub enum RunMode {
    Open,
    /// A control suspended the run.
    Held,
    Failed,
    Aborted,
}

/// Whether moves are allowed.
pub(crate) fn is_open(mode: RunMode) -> bool
    ensures { result ≡ is_running (mode_of mode) }
{
    match mode {
        RunMode::Open => true,
        _ => false,
    }
}

/// The mode behind a control, where the mode before it allows the control.
pub(crate) fn mode_behind(mode: RunMode, control: Entry) -> Option<RunMode>
    ensures { result ≡ mode_behind mode control }
{
    match (mode, control) {
        (RunMode::Open, Entry::Snapshot) => Some(RunMode::Open),
        (RunMode::Held, Entry::Snapshot) => Some(RunMode::Held),
        (RunMode::Open, Entry::Suspend) => Some(RunMode::Held),
        (RunMode::Held, Entry::Resume) => Some(RunMode::Open),
        (RunMode::Open, Entry::Abort) => Some(RunMode::Aborted),
        (RunMode::Held, Entry::Abort) => Some(RunMode::Aborted),
        _ => None,
    }
}
