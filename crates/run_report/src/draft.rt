//! A report on its way: what was written of the entries so far.
ghost use Rattle.std.specs.Prelude.{◌≡◌, ◌<◌, ◌++◌, ◌∷◌, [], List, IfOk, OnOk};
ghost use Rattle.fcp_model.specs.Events.{Event};
ghost use Rattle.fcp_model.specs.Spelling.{Bytes};
ghost use Rattle.log_replay.specs.Replays.{room_of};
ghost use Rattle.worker_crew.specs.Tasks.{IsTask};
ghost use Rattle.run_report.specs.Parts.{Follows, IsDraft, DraftHasNext};

use crate::making::make_next;
use crate::snapshots::push_snapshot;
use fcp_model::spelling::push_bytes;
use fcp_model::{Entry, Names, NoMemory};
use log_replay::Replay;
use std::alloc::Global;
use worker_crew::Task;

/// What was written of some entries: the text of the log, and that of the snapshots, which stand behind all else in a report; and the
/// replay behind the entries, with their number.
#[derive(Drop)]
pub(crate) struct Draft {
    pub replay: Replay,
    pub entries: u32,
    pub log: Vec<u8>,
    pub snapshots: Vec<u8>,
}

impl Draft {
    /// The draft before the first entry, with room for so many. The only error is want of memory.
    pub(crate) fn begin(alloc: Global, task: &Task, entries: u32) -> Result<Draft, NoMemory>
        requires task { IsTask task.now }
        requires entries { entries < 134217728 }
        ensures draft { (names : List Bytes) → IfOk result (IsDraft names task.now []) }
        ensures room { IfOk result (λ d. room_of d.replay ≡ entries) }
    {
        let mut log = Vec::new(alloc);
        push_bytes(&mut log, b"logix log 1\n")?;
        Ok(Draft {
            replay: Replay::make(alloc, task.goal, task.limits.cells, entries)?,
            entries: 0,
            log,
            snapshots: Vec::new(alloc),
        })
    }

    /// Makes the next entry again, and writes its line, and the snapshot of the state behind it where it asks for one. The only error is
    /// want of memory, after which the draft is good only for dropping.
    pub(crate) fn note(
        &mut self,
        alloc: Global,
        names: &Names,
        task: &Task,
        entry: Entry,
    ) -> Result<(), NoMemory>
        requires task { IsTask task.now }
        requires next { DraftHasNext names.now task.now entry self.old }
        ensures draft { (evs : List Event) (ev : Event) → IsDraft names.now task.now evs self.old → Follows task.now evs entry ev
            → OnOk result (IsDraft names.now task.now (evs ++ ev ∷ []) self.new) }
        ensures room { room_of self.new.replay ≡ room_of self.old.replay }
    {
        report_laws::texts();
        report_laws::snapshots();
        transition_laws::next_entries();
        make_next(&mut self.replay, task, entry)?;
        self.entries += 1;
        self.replay.line(names, &mut self.log)?;
        match entry {
            Entry::Snapshot => push_snapshot(
                alloc,
                names,
                task,
                &mut self.replay,
                self.entries,
                &mut self.snapshots,
            ),
            _ => Ok(()),
        }
    }
}
