//! An entry of the run is made again.
ghost use Rattle.std.specs.Prelude.{◌≡◌, ◌++◌, ◌∷◌, [], List, OnOk};
ghost use Rattle.fcp_model.specs.Events.{Event};
ghost use Rattle.log_replay.specs.Replays.{Shows, room_of};
ghost use Rattle.worker_crew.specs.Tasks.{IsTask};
ghost use Rattle.run_report.specs.Parts.{IsMade, Follows, HasNext};

use fcp_model::{Entry, NoMemory};
use log_replay::{Replay, Stepped};
use worker_crew::Task;

/// Makes the next entry of a run of the task again. The only error is want of memory, after which the replay is good only for dropping.
pub(crate) fn make_next(replay: &mut Replay, task: &Task, entry: Entry) -> Result<(), NoMemory>
    requires task { IsTask task.now }
    requires next { HasNext task.now entry replay.old }
    ensures made { (evs : List Event) (ev : Event) → IsMade task.now evs replay.old → Follows task.now evs entry ev
        → OnOk result (IsMade task.now (evs ++ ev ∷ []) replay.new × Shows ev replay.new) }
    ensures room { room_of replay.new ≡ room_of replay.old }
{
    fcp_laws::determined_runs();
    transition_laws::next_entries();
    match replay.step(task.code, entry) {
        Stepped::Done => Ok(()),
        Stepped::NoMemory => Err(NoMemory),
        // The run allows the entry, which is decided, and its cells are left.
        Stepped::Wrong(_) => unreachable!(),
        Stepped::Spent { needed: _, left: _ } => unreachable!(),
    }
}
