//! One instruction.
ghost use Rattle.std.specs.Prelude.{◌≡◌, ◌≤◌, Some, length, slice_get, OnOk, IfOk};
ghost use Rattle.safe_tries.specs.Stored.{IsStored};
ghost use Rattle.trial_machine.specs.Machines.{KeepsMachine};
ghost use Rattle.trial_machine.specs.Running.{IsAt, Steps, step_opened, step_turned};
ghost use Rattle.trial_machine.specs.Stores.{Loads};

use crate::machine::{Machine, Opened, Turn};
use fcp_model::NoMemory;
use heap_words::Words;
use machine_code::{Code, Instr};

/// An instruction led to a position, the try was left or commits, or no store stands so.
pub(crate) enum Step {
    To(u32),
    Left,
    Commits,
    Nowhere,
}

/// Where a value that is to be opened leads: to the next instruction, or to where the term is put.
fn opened(opened: Opened, next: u32, put: u32) -> Step
    ensures { result ≡ step_opened opened next put }
{
    match opened {
        Opened::Taken => Step::To(next),
        Opened::Other => Step::To(put),
        Opened::Nowhere => Step::Nowhere,
    }
}

/// To the next instruction, or the try was left.
fn turned(turn: Turn, next: u32) -> Step
    ensures { result ≡ step_turned turn next }
{
    match turn {
        Turn::On => Step::To(next),
        Turn::Left => Step::Left,
    }
}

impl Machine {
    /// Follows the instruction at a position in a try. Of another try's begin inside a try, which no compiled code has, the answer
    /// is `NoMemory`.
    pub(crate) fn step<W: Words>(
        &mut self,
        code: &Code,
        words: &mut W,
        at: u32,
        instr: &Instr,
    ) -> Result<Step, NoMemory>
        requires stored { IsStored W.addresses W.sound W.had W.shown W.later self.old.trail.kept words.old }
        requires on_way { IsAt code.now at self.old }
        requires there { slice_get code.now.instrs at ≡ Some instr.now }
        requires slots { code.now.slots ≤ length self.old.desk.slots.slots }
        ensures between { W.later words.old words.new }
        ensures loaded { OnOk result (Loads W.addresses W.sound W.had W.shown W.later W.gave self.old.trail.kept words.old
            self.new.trail.kept words.new) }
        ensures steps { IfOk result (Steps code.now self.old self.new at) }
        ensures keeps { KeepsMachine self.old self.new }
    {
        code.sound();
        let _slots = code.slots();
        let Some(next) = at.checked_add(1) else {
            return Err(NoMemory);
        };
        match *instr {
            Instr::Try { .. } => Err(NoMemory),
            Instr::GetFirst { slot, var } => {
                self.get_first(slot, var)?;
                Ok(Step::To(next))
            }
            Instr::GetCons {
                slot,
                left,
                right,
                put,
            } => {
                let end = self.open_pair(words, slot, left, right, put)?;
                Ok(opened(end, next, put))
            }
            Instr::GetTuple {
                slot,
                first,
                parts,
                put,
            } => {
                let end = self.open_tuple(words, slot, first, parts, put)?;
                Ok(opened(end, next, put))
            }
            Instr::PutVar { slot, var, ro } => {
                self.put_variable(slot, var, ro)?;
                Ok(Step::To(next))
            }
            Instr::PutWord { slot, word } => {
                self.put_constant(slot, word, code)?;
                Ok(Step::To(next))
            }
            Instr::PutCons { slot, left, right } => {
                self.put_pair(slot, left, right)?;
                Ok(Step::To(next))
            }
            Instr::PutTuple {
                slot,
                first,
                parts,
                op,
            } => {
                self.put_tuple(slot, first, parts, op)?;
                Ok(Step::To(next))
            }
            Instr::Unify { left, right } => {
                let turn = self.unify(words, left, right)?;
                Ok(turned(turn, next))
            }
            Instr::Jump { to } => Ok(Step::To(to)),
            Instr::Test {
                kind,
                left,
                left_len,
                right,
                right_len,
            } => {
                let turn = self.test(code, words, kind, left, left_len, right, right_len)?;
                Ok(turned(turn, next))
            }
            Instr::Otherwise => {
                let turn = self.otherwise(words)?;
                Ok(turned(turn, next))
            }
            Instr::Spawn {
                procedure,
                first,
                parts,
            } => {
                self.spawn(procedure, first, parts)?;
                Ok(Step::To(next))
            }
            Instr::Commit => Ok(Step::Commits),
        }
    }
}
