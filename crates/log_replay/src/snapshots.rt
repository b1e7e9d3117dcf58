//! The lines of the processes of the state behind a replay.
ghost use Rattle.std.specs.Prelude.{◌≡◌, ℕ, List, OnOk};
ghost use Rattle.fcp_model.specs.Programs.{Program};
ghost use Rattle.fcp_model.specs.States.{State};
ghost use Rattle.fcp_model.specs.LawfulStates.{IsLawfulState};
ghost use Rattle.fcp_model.specs.Events.{Event};
ghost use Rattle.fcp_model.specs.Runs.{last_state};
ghost use Rattle.fcp_model.specs.ReportText.{process_lines};
ghost use Rattle.fcp_model.specs.Translation.{program_of};
ghost use Rattle.trial_machine.specs.Deciding.{IsCodeOf};
ghost use Rattle.entry_lines.specs.Additions.{Adds};
ghost use Rattle.log_replay.specs.Replays.{IsReplayed, IsStanding, Shows, room_of};

use crate::replay::Replay;
use crate::waits::all_places;
use fcp_model::{Loaded, Names, NoMemory};
use machine_code::Code;
use process_texts::{ProcessLists, push_process_lines};
use ready_lists::{live_processes, live_states};
use std::alloc::Global;

impl Replay {
    /// Puts a line for each process of the last state that is not finished, by name, after a text: its name, how it stands, with the places
    /// on which it waits, and its goal. `loaded` is the module of the run's program, and `code` its code. The only error is want of memory,
    /// after which a front of the lines may stand there.
    pub fn process_lines(
        &mut self,
        alloc: Global,
        names: &Names,
        loaded: &Loaded,
        code: &Code,
        out: &mut Vec<u8>,
    ) -> Result<(), NoMemory>
        requires standing { IsStanding self.old }
        ensures lines { (from : State) (cells : ℕ) (evs : List Event) → IsCodeOf code.now (program_of loaded.now)
            → IsReplayed (program_of loaded.now) from cells evs self.old → IsLawfulState (program_of loaded.now) (last_state from evs)
            → OnOk result (Adds out.old.items out.new.items (λ n. process_lines n names.now (program_of loaded.now)
            (last_state from evs).bound (last_state from evs).processes)) }
        ensures replayed { (m : Program) (from : State) (cells : ℕ) (evs : List Event) → IsReplayed m from cells evs self.old
            → IsReplayed m from cells evs self.new }
        ensures shows { (ev : Event) → Shows ev self.old → Shows ev self.new }
        ensures room { room_of self.new ≡ room_of self.old }
    {
        live_states();
        let processes = live_processes(alloc, self.hall.words())?;
        let waits = all_places(
            alloc,
            &mut self.hall,
            &mut self.planner.machine,
            code,
            processes.as_slice(),
        )?;
        push_process_lines(
            &mut ProcessLists::make(alloc),
            &mut self.trail,
            &mut self.hall,
            names,
            loaded,
            out,
            processes.as_slice(),
            waits.as_slice(),
        )
    }
}
