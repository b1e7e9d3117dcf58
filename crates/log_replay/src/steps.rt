//! A step: the next entry of a log is made.
ghost use Rattle.std.specs.Prelude.{◌≡◌, ◌<◌, ℕ, List};
ghost use Rattle.fcp_model.specs.Programs.{Program};
ghost use Rattle.fcp_model.specs.States.{State};
ghost use Rattle.fcp_model.specs.Events.{Event};
ghost use Rattle.trial_machine.specs.Deciding.{IsCodeOf};
ghost use Rattle.log_replay.specs.Replays.{IsStanding, IsReplayed, StepSays, StandsBy, StillShows, room_of};
ghost use Rattle.log_replay.specs.Parts.{IsControl};

use crate::answer::{Stepped, Why};
use crate::mode::mode_behind;
use crate::replay::Replay;
use fcp_model::Entry;
use machine_code::Code;

impl Replay {
    /// Makes a control, where the mode of the run allows it.
    fn step_control(&mut self, control: Entry) -> Stepped
        requires standing { IsStanding self.old }
        requires room { self.old.entries < room_of self.old }
        requires control { IsControl control }
        ensures says { (m : Program) (from : State) (cells : ℕ) (evs : List Event) → IsReplayed m from cells evs self.old
            → StepSays m from cells evs control self.new result }
        ensures shows { StillShows self.old self.new result }
        ensures room { room_of self.new ≡ room_of self.old }
    {
        let Some(mode) = mode_behind(self.mode, control) else {
            return Stepped::Wrong(Why::State);
        };
        self.stamp(control);
        self.mode = mode;
        Stepped::Done
    }

    /// Makes the entry, where it is the next one of the run and its cells are left, and else tells why not. `code` is that of the run's
    /// program. By other code another move would be planned, which is none of this run: the words behind it would stand for no state, and
    /// what it names as its children need be no processes. Fewer entries than the replay has room for were made. `NoMemory` is answered for
    /// moves alone that the run allows; the replay is good only for dropping then. After every other answer it goes on from the state
    /// behind the entries that were made, and shows the last of them.
    pub fn step(&mut self, code: &Code, entry: Entry) -> Stepped
        requires standing { StandsBy code.now self.old }
        requires room { self.old.entries < room_of self.old }
        ensures says { (m : Program) (from : State) (cells : ℕ) (evs : List Event) → IsCodeOf code.now m
            → IsReplayed m from cells evs self.old → StepSays m from cells evs entry self.new result }
        ensures shows { StillShows self.old self.new result }
        ensures room { room_of self.new ≡ room_of self.old }
    {
        match entry {
            Entry::Commit { process, clause: _ } => self.step_move(code, entry, process),
            Entry::Hang { process } => self.step_move(code, entry, process),
            Entry::Fail { process } => self.step_move(code, entry, process),
            _ => self.step_control(entry),
        }
    }
}
