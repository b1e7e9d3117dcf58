//! The moves of processes that are Ready.
ghost use Rattle.std.specs.Prelude.{◌≡◌, ◌↔◌, true, ◌⊎◌, ◌+◌, ◌<◌, ◌≤◌, ℕ, List, Some, IfOk, OnOk};
ghost use Rattle.fcp_model.specs.Programs.{Program};
ghost use Rattle.fcp_model.specs.States.{State};
ghost use Rattle.fcp_model.specs.Events.{Event};
ghost use Rattle.heap_words.specs.Heaps.{inside_at};
ghost use Rattle.heap_words.specs.Trails.{word_at};
ghost use Rattle.trial_machine.specs.Deciding.{IsCodeOf};
ghost use Rattle.trial_machine.specs.Goals.{HasStatus};
ghost use Rattle.move_plans.specs.Plans.{IsMoveOf, PlanSays};
ghost use Rattle.commit_engine.specs.PlainHalls.{IsSame};
ghost use Rattle.commit_engine.specs.Turns.{IsCommit, IsHang, IsFail};
ghost use Rattle.log_replay.specs.Replays.{IsAtRest, IsDone, IsReplayed, StandsBy, StepSays, StillShows, room_of};
ghost use Rattle.log_replay.specs.Parts.{AreInUse, IsMoving, IsOfKind, MayMake, MayMakeSome, NotedSays, NotesEntry};

use crate::answer::{Stepped, Why};
use crate::mode::{RunMode, is_open};
use crate::replay::Replay;
use commit_engine::{Hall, PlainHall, Turn, make_planned};
use fcp_model::{Entry, NoMemory, Proc};
use machine_code::Code;
use move_plans::{Planned, Planner};
use std::mem;
use word_moves::WordMove;

/// Plans the move of the process at an address, whatever its cells are: what it is has to be told first.
fn plan(
    hall: &mut PlainHall,
    planner: &mut Planner,
    code: &Code,
    process: u32,
) -> Result<Planned, NoMemory>
    requires rest { IsAtRest hall.old }
    requires process { HasStatus (λ (h : PlainHall) a x. inside_at h.words.items a ≡ Some x) hall.old process }
    ensures same { IsSame hall.old hall.new }
    ensures rest { IsAtRest hall.new }
    ensures says { IfOk result (PlanSays code.now planner.new process 4294967295) }
    ensures read { OnOk result ((a x : ℕ) → word_at planner.new.machine.trail.kept a ≡ Some x
        → inside_at hall.new.words.items a ≡ Some x) }
{
    let pages = hall.pages();
    planner.plan(code, hall, process, pages, u32::MAX)
}

/// Whether two entries are one.
fn is_entry(left: Entry, right: Entry) -> bool
    ensures { (result ≡ true) ↔ (left ≡ right) }
{
    left == right
}

impl Replay {
    /// Makes an entry that writes no words.
    pub(crate) fn stamp(&mut self, entry: Entry)
        requires rest { IsAtRest self.old.hall }
        requires room { 0 < self.old.hall.spare }
        requires moves { self.old.hall.spare ≤ self.old.hall.quota.moves }
        requires number { self.old.entries + 1 < 4294967296 }
        requires kind { IsCommit entry → ⊥ }
        ensures { NotesEntry entry self.old self.new }
    {
        let alloc = *self.planner.writes.allocator();
        self.hall.stamp(WordMove {
            entry,
            address: 0,
            reads: Vec::new(alloc),
            writes: Vec::new(alloc),
            cells: 0,
        });
        self.hall.publish();
        self.entry = entry;
        self.entries += 1;
    }

    /// Takes the mover of the entry that was made out of the table, puts its children and those that it woke into it, and keeps what its
    /// line is read off.
    fn note_move(&mut self, mover: Proc) -> Stepped
        requires rest { IsAtRest self.old.hall }
        requires number { self.old.entries + 1 < 4294967296 }
        requires children { AreInUse self.old.hall.words.items self.old.planner.children.items }
        requires woken { AreInUse self.old.hall.words.items self.old.planner.woken.items }
        ensures same { IsSame self.old.hall self.new.hall }
        ensures says { NotedSays mover self.old self.new result }
    {
        self.entry = self.planner.entry;
        self.entries += 1;
        self.ready.take_out(mover);
        let born = self.planner.children.as_slice();
        let Ok(()) = self.ready.put_all(&mut self.hall, born) else {
            return Stepped::NoMemory;
        };
        let woken = self.planner.woken.as_slice();
        let Ok(()) = self.ready.put_all(&mut self.hall, woken) else {
            return Stepped::NoMemory;
        };
        mem::swap(&mut self.bound, &mut self.planner.bound);
        mem::swap(&mut self.woken, &mut self.planner.woken);
        mem::swap(&mut self.waits, &mut self.planner.waits);
        Stepped::Done
    }

    /// Makes the commit or the hang that is planned, where its cells are left.
    fn make_move(&mut self, mover: Proc, address: u32) -> Stepped
        requires moving { IsMoving self.old mover address }
        requires some { MayMakeSome self.old address }
        requires kind { IsCommit self.old.planner.entry ⊎ IsHang self.old.planner.entry }
        ensures says { (m : Program) (from : State) (cells : ℕ) (evs : List Event) → MayMake m from cells evs self.old address
            → StepSays m from cells evs self.old.planner.entry self.new result }
        ensures shows { StillShows self.old self.new result }
        ensures room { room_of self.new ≡ room_of self.old }
    {
        let needed = self.planner.cells;
        let left = self.hall.quota().cells;
        if needed > left {
            return Stepped::Spent { needed, left };
        }
        match make_planned(&mut self.hall, &mut self.planner, address) {
            Turn::Committed { number: _ } => self.note_move(mover),
            Turn::Hung { number: _ } => self.note_move(mover),
            Turn::NoMemory => Stepped::NoMemory,
            _ => unreachable!(),
        }
    }

    /// Makes the fail that is planned. It takes no memory.
    fn make_fail(&mut self, mover: Proc, address: u32)
        requires moving { IsMoving self.old mover address }
        requires some { MayMakeSome self.old address }
        requires kind { IsFail self.old.planner.entry }
        ensures done { (m : Program) (from : State) (cells : ℕ) (evs : List Event) → MayMake m from cells evs self.old address
            → IsDone m from cells evs self.old.planner.entry self.new }
        ensures room { room_of self.new ≡ room_of self.old }
    {
        self.stamp(self.planner.entry);
        self.mode = RunMode::Failed;
    }

    /// Makes the entry that is planned, of this kind.
    fn make_entry(&mut self, planned: Planned, mover: Proc, address: u32) -> Stepped
        requires moving { IsMoving self.old mover address }
        requires some { MayMakeSome self.old address }
        requires kind { IsOfKind planned self.old.planner.entry }
        ensures says { (m : Program) (from : State) (cells : ℕ) (evs : List Event) → MayMake m from cells evs self.old address
            → StepSays m from cells evs self.old.planner.entry self.new result }
        ensures shows { StillShows self.old self.new result }
        ensures room { room_of self.new ≡ room_of self.old }
    {
        match planned {
            Planned::Commits => self.make_move(mover, address),
            Planned::Hangs => self.make_move(mover, address),
            Planned::Fails => {
                self.make_fail(mover, address);
                Stepped::Done
            }
            _ => unreachable!(),
        }
    }

    /// Makes an entry of a process, where it is the next one.
    pub(crate) fn step_move(&mut self, code: &Code, entry: Entry, mover: Proc) -> Stepped
        requires standing { StandsBy code.now self.old }
        requires room { self.old.entries < room_of self.old }
        requires move_of { IsMoveOf entry mover }
        ensures says { (m : Program) (from : State) (cells : ℕ) (evs : List Event) → IsCodeOf code.now m
            → IsReplayed m from cells evs self.old → StepSays m from cells evs entry self.new result }
        ensures shows { StillShows self.old self.new result }
        ensures room { room_of self.new ≡ room_of self.old }
    {
        if !is_open(self.mode) {
            return Stepped::Wrong(Why::State);
        }
        let Some(address) = self.ready.find(mover) else {
            return Stepped::Wrong(Why::State);
        };
        let Ok(planned) = plan(&mut self.hall, &mut self.planner, code, address) else {
            return Stepped::NoMemory;
        };
        // A planner with no room has planned no entry.
        if let Planned::Full = planned {
            return Stepped::NoMemory;
        }
        // More cells than a u32 counts are left to no entry.
        if let Planned::Large { .. } = planned {
            return Stepped::NoMemory;
        }
        if !is_entry(self.planner.entry, entry) {
            return Stepped::Wrong(Why::Answer);
        }
        self.make_entry(planned, mover, address)
    }
}
