//! The lines of a replay: that of the entry that was made last, and those of the goal's variables.
ghost use Rattle.std.specs.Prelude.{◌≡◌, ◌<◌, ℕ, List, OnOk};
ghost use Rattle.fcp_model.specs.declared.source.Module.{Module};
ghost use Rattle.fcp_model.specs.Programs.{Program};
ghost use Rattle.fcp_model.specs.States.{State};
ghost use Rattle.fcp_model.specs.Events.{Event};
ghost use Rattle.fcp_model.specs.Runs.{last_state};
ghost use Rattle.fcp_model.specs.LogText.{event_line};
ghost use Rattle.fcp_model.specs.ReportText.{goal_variables, variable_lines};
ghost use Rattle.fcp_model.specs.Translation.{program_of, start_of};
ghost use Rattle.goal_layout.specs.Goals.{MayBeLaid};
ghost use Rattle.entry_lines.specs.Additions.{Adds};
ghost use Rattle.log_replay.specs.Replays.{IsReplayed, StandsFromGoal, StandsShowing, Shows, room_of};
ghost use Rattle.log_replay.specs.Parts.{IsControl, AddsControl};

use crate::replay::Replay;
use entry_lines::{push_commit_line, push_hang_line, push_variable_lines};
use fcp_model::log_lines::push_fail_line;
use fcp_model::spelling::{push_bytes, push_decimal};
use fcp_model::{Entry, LoadedGoal, Names, NoMemory};

/// Puts `N WORD` for a control.
fn push_control_line(out: &mut Vec<u8>, entry: u32, control: Entry) -> Result<(), NoMemory>
    requires { IsControl control }
    ensures { OnOk result (AddsControl entry control out.old.items out.new.items) }
{
    push_decimal(out, entry)?;
    match control {
        Entry::Snapshot => push_bytes(out, b" snapshot\n"),
        Entry::Suspend => push_bytes(out, b" suspend\n"),
        Entry::Resume => push_bytes(out, b" resume\n"),
        Entry::Abort => push_bytes(out, b" abort\n"),
        _ => unreachable!(),
    }
}

impl Replay {
    /// Puts the line of the entry that the last step made after a text. The only error is want of memory, after which a front of the line
    /// may stand there.
    pub fn line(&mut self, names: &Names, out: &mut Vec<u8>) -> Result<(), NoMemory>
        requires standing { StandsShowing self.old }
        ensures line { (ev : Event) → Shows ev self.old
            → OnOk result (Adds out.old.items out.new.items (λ n. event_line n names.now ev)) }
        ensures replayed { (m : Program) (from : State) (cells : ℕ) (evs : List Event) → IsReplayed m from cells evs self.old
            → IsReplayed m from cells evs self.new }
        ensures shows { (ev : Event) → Shows ev self.old → Shows ev self.new }
        ensures room { room_of self.new ≡ room_of self.old }
    {
        match self.entry {
            Entry::Commit { process, clause } => push_commit_line(
                &mut self.lists,
                &mut self.trail,
                &mut self.hall,
                names,
                out,
                self.entries,
                process,
                clause,
                self.bound.as_slice(),
                self.woken.as_slice(),
            ),
            Entry::Hang { process } => push_hang_line(
                &mut self.trail,
                &mut self.hall,
                names,
                out,
                self.entries,
                process,
                self.waits.as_slice(),
            ),
            Entry::Fail { process } => push_fail_line(out, self.entries, process),
            control => push_control_line(out, self.entries, control),
        }
    }

    /// Puts a line for each of the goal's variables that has a name, by its value in the last state, after a text. The goal is the one that
    /// the replay was made of. The only error is want of memory, after which a front of the lines may stand there.
    pub fn goal_lines(
        &mut self,
        names: &Names,
        goal: &LoadedGoal,
        out: &mut Vec<u8>,
    ) -> Result<(), NoMemory>
        requires standing { StandsFromGoal goal.now self.old }
        ensures lines { (m : Module) (cells : ℕ) (evs : List Event)
            → IsReplayed (program_of m) (start_of m goal.now.0) cells evs self.old
            → OnOk result (Adds out.old.items out.new.items (λ n. variable_lines n names.now (last_state (start_of m goal.now.0) evs).bound
            (goal_variables goal.now.0.names))) }
        ensures replayed { (m : Program) (from : State) (cells : ℕ) (evs : List Event) → IsReplayed m from cells evs self.old
            → IsReplayed m from cells evs self.new }
        ensures shows { (ev : Event) → Shows ev self.old → Shows ev self.new }
        ensures room { room_of self.new ≡ room_of self.old }
    {
        push_variable_lines(
            &mut self.lists,
            &mut self.trail,
            &mut self.hall,
            names,
            out,
            goal.goal().names.as_slice(),
        )
    }
}
