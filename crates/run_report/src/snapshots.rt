//! The snapshot of the state behind a replay.
ghost use Rattle.std.specs.Prelude.{◌≡◌, ◌++◌, List, length, OnOk};
ghost use Rattle.fcp_model.specs.Events.{Event};
ghost use Rattle.log_replay.specs.Replays.{room_of};
ghost use Rattle.report_laws.specs.Lines.{snapshot_line};
ghost use Rattle.worker_crew.specs.Tasks.{IsTask};
ghost use Rattle.run_report.specs.Parts.{IsMade, HasMade, AddsSnapshot};

use fcp_model::spelling::{push_bytes, push_decimal};
use fcp_model::{Names, NoMemory};
use log_replay::Replay;
use std::alloc::Global;
use worker_crew::Task;

/// Puts `snapshot N` after a text, with the number of the last entry. The only error is want of memory.
fn push_snapshot_line(out: &mut Vec<u8>, entries: u32) -> Result<(), NoMemory>
    ensures { OnOk result (out.new.items ≡ out.old.items ++ snapshot_line entries) }
{
    push_bytes(out, b"snapshot ")?;
    push_decimal(out, entries)?;
    push_bytes(out, b"\n")
}

/// Puts the snapshot of the state behind so many entries after a text. The only error is want of memory, after which a front of the
/// snapshot may stand there.
pub(crate) fn push_snapshot(
    alloc: Global,
    names: &Names,
    task: &Task,
    replay: &mut Replay,
    entries: u32,
    out: &mut Vec<u8>,
) -> Result<(), NoMemory>
    requires task { IsTask task.now }
    requires made { HasMade task.now entries replay.old }
    ensures snapshot { (evs : List Event) → IsMade task.now evs replay.old → length evs ≡ entries
        → OnOk result (AddsSnapshot names.now task.now evs out.old.items out.new.items) }
    ensures made { (evs : List Event) → IsMade task.now evs replay.old → IsMade task.now evs replay.new }
    ensures room { room_of replay.new ≡ room_of replay.old }
{
    report_laws::snapshots();
    state_laws::lawful_runs();
    push_snapshot_line(out, entries)?;
    replay.goal_lines(names, task.goal, out)?;
    replay.process_lines(alloc, names, task.loaded, task.code, out)?;
    push_bytes(out, b"done\n")
}
