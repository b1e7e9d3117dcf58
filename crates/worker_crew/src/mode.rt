//! The mode of a run.
ghost use Rattle.std.specs.Prelude.{◌≡◌};
ghost use Rattle.fcp_model.specs.OneWorker.{mode_after};
ghost use Rattle.worker_crew.specs.Reached.{mode_of};

use fcp_model::Act;

/// How a run stands that did not fail.
#[derive(Clone, Copy, Debug, PartialEq, Eq)]
pub(crate) enum RunMode {
    Open,
    /// A control suspended the run.
    Held,
    Aborted,
}

/// The mode behind a control.
pub(crate) fn mode_behind(mode: RunMode, act: Act) -> RunMode
    ensures { mode_of result ≡ mode_after act (mode_of mode) }
{
    match act {
        Act::Snapshot => mode,
        Act::Suspend => RunMode::Held,
        Act::Resume => RunMode::Open,
        Act::Abort => RunMode::Aborted,
    }
}
