//! The end of a report: the end of the log, the outcome, the goal's variables, and the controls that were not reached.
ghost use Rattle.std.specs.Prelude.{◌≡◌, ◌++◌, ◌∷◌, [], List, drop, IfOk, OnOk};
ghost use Rattle.fcp_model.specs.Events.{Event};
ghost use Rattle.fcp_model.specs.ReportText.{act_word, not_reached_lines};
ghost use Rattle.worker_crew.specs.Tasks.{IsTask};
ghost use Rattle.run_report.specs.Texts.{IsReportText};
ghost use Rattle.run_report.specs.Parts.{IsDraft, IsSomeDraft};

use crate::draft::Draft;
use fcp_model::log_lines::{push_end_line, push_outcome_line};
use fcp_model::spelling::{push_bytes, push_decimal};
use fcp_model::{Act, Control, Names, NoMemory};
use worker_crew::{Run, Task};

/// The word of a control.
fn act_word(act: Act) -> &'static [u8]
    ensures { result.now ≡ act_word act }
{
    match act {
        Act::Snapshot => b"snapshot",
        Act::Suspend => b"suspend",
        Act::Resume => b"resume",
        Act::Abort => b"abort",
    }
}

/// Puts `not reached after N WORD` for a control.
fn push_left_control(out: &mut Vec<u8>, control: Control) -> Result<(), NoMemory>
    ensures { OnOk result (out.new.items ≡ out.old.items ++ not_reached_lines (control ∷ [])) }
{
    push_bytes(out, b"not reached after ")?;
    push_decimal(out, control.after)?;
    push_bytes(out, b" ")?;
    push_bytes(out, act_word(control.act))?;
    push_bytes(out, b"\n")
}

/// Puts a line for each of the controls, which were not made.
fn push_left_controls(out: &mut Vec<u8>, controls: &[Control]) -> Result<(), NoMemory>
    ensures { OnOk result (out.new.items ≡ out.old.items ++ not_reached_lines controls.now) }
{
    for control in controls {
        push_left_control(out, *control)?;
    }
    Ok(())
}

/// The controls of the task that its run did not make.
fn left_controls<'a>(task: &Task<'a>, run: &Run) -> &'a [Control]
    ensures { result.now ≡ drop run.now.reached task.now.controls.now }
{
    let controls = task.controls;
    let reached = controls.len().min(run.reached as usize);
    &controls[reached..]
}

impl Draft {
    /// The report of the run of which each entry was written. The only error is want of memory.
    pub(crate) fn close(self, names: &Names, task: &Task, run: &Run) -> Result<Vec<u8>, NoMemory>
        requires task { IsTask task.now }
        requires draft { IsSomeDraft names.now task.now self }
        ensures { (evs : List Event) → IsDraft names.now task.now evs self
            → IfOk result (λ bytes. IsReportText names.now task.now run.now evs bytes.items) }
    {
        report_laws::texts();
        let Draft {
            mut replay,
            entries,
            log: mut text,
            snapshots,
        } = self;
        push_end_line(&mut text, entries)?;
        push_outcome_line(&mut text, run.outcome)?;
        replay.goal_lines(names, task.goal, &mut text)?;
        push_left_controls(&mut text, left_controls(task, run))?;
        push_bytes(&mut text, snapshots.as_slice())?;
        Ok(text)
    }
}
