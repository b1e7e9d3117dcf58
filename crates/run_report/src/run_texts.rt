//! The report of a run, and parts of it.
ghost use Rattle.std.specs.Prelude.{◌≡◌, ◌≤◌, List, length, take, IfOk};
ghost use Rattle.fcp_model.specs.Events.{Event};
ghost use Rattle.fcp_model.specs.Runs.{IsRun, last_state};
ghost use Rattle.worker_crew.specs.Tasks.{IsTask, HasLog, program, first_state};
ghost use Rattle.run_report.specs.Texts.{IsReportText, IsSnapshotText, IsBindingsText};
ghost use Rattle.run_report.specs.Parts.{HasEvents, IsDraft, IsMade};

use crate::draft::Draft;
use crate::making::make_next;
use crate::snapshots::push_snapshot;
use fcp_model::{Entry, Names, NoMemory};
use log_replay::Replay;
use std::alloc::Global;
use worker_crew::{Run, Task};

/// The draft of a report behind all entries of a log.
fn draft_of(alloc: Global, names: &Names, task: &Task, log: &[Entry]) -> Result<Draft, NoMemory>
    requires task { IsTask task.now }
    requires log { HasEvents task.now log.now }
    ensures { (evs : List Event) → IsRun (program task.now) (first_state task.now) log.now evs
        → IfOk result (IsDraft names.now task.now evs) }
{
    fcp_laws::determined_runs();
    let mut draft = Draft::begin(alloc, task, log.len() as u32)?;
    for entry in log {
        draft.note(alloc, names, task, *entry)?;
    }
    Ok(draft)
}

/// A replay behind all entries of a log.
fn replay_of(alloc: Global, task: &Task, log: &[Entry]) -> Result<Replay, NoMemory>
    requires task { IsTask task.now }
    requires log { HasEvents task.now log.now }
    ensures { (evs : List Event) → IsRun (program task.now) (first_state task.now) log.now evs → IfOk result (IsMade task.now evs) }
{
    fcp_laws::determined_runs();
    let mut replay = Replay::make(alloc, task.goal, task.limits.cells, log.len() as u32)?;
    for entry in log {
        make_next(&mut replay, task, *entry)?;
    }
    Ok(replay)
}

/// The report of a run of the task, made from its log: the lines of the entries, the end of the log, the outcome, the lines of the goal's
/// variables and of the controls that were not reached, and the snapshots. `names` are the strings of the module and the goal. The only
/// error is want of memory.
pub fn report(alloc: Global, names: &Names, task: &Task, run: &Run) -> Result<Vec<u8>, NoMemory>
    requires task { IsTask task.now }
    requires log { HasLog task.now run.now }
    ensures { (evs : List Event) → IsRun (program task.now) (first_state task.now) run.now.log.items evs
        → IfOk result (λ bytes. IsReportText names.now task.now run.now evs bytes.items) }
{
    let draft = draft_of(alloc, names, task, run.log.as_slice())?;
    draft.close(names, task, run)
}

/// The snapshot of the state behind so many entries of a run, whether or not one was asked for there. Behind 0 entries stands the state
/// before the first one. The only error is want of memory.
pub fn snapshot_text(
    alloc: Global,
    names: &Names,
    task: &Task,
    run: &Run,
    entries: u32,
) -> Result<Vec<u8>, NoMemory>
    requires task { IsTask task.now }
    requires log { HasLog task.now run.now }
    requires entries { entries ≤ length run.now.log.items }
    ensures { (evs : List Event) → IsRun (program task.now) (first_state task.now) run.now.log.items evs → IfOk result (λ bytes.
        IsSnapshotText names.now task.now (last_state (first_state task.now) (take entries evs)) bytes.items) }
{
    let log = run.log.as_slice();
    let mut replay = replay_of(alloc, task, &log[..entries as usize])?;
    let mut text = Vec::new(alloc);
    push_snapshot(alloc, names, task, &mut replay, entries, &mut text)?;
    Ok(text)
}

/// The lines of the goal's variables, by their values in the last state of a run. The only error is want of memory.
pub fn bindings_text(
    alloc: Global,
    names: &Names,
    task: &Task,
    run: &Run,
) -> Result<Vec<u8>, NoMemory>
    requires task { IsTask task.now }
    requires log { HasLog task.now run.now }
    ensures { (evs : List Event) → IsRun (program task.now) (first_state task.now) run.now.log.items evs → IfOk result (λ bytes.
        IsBindingsText names.now task.now (last_state (first_state task.now) evs) bytes.items) }
{
    let mut replay = replay_of(alloc, task, run.log.as_slice())?;
    let mut text = Vec::new(alloc);
    replay.goal_lines(names, task.goal, &mut text)?;
    Ok(text)
}
