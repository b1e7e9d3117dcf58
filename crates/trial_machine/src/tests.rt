//! The instruction that makes a test.
ghost use Rattle.std.specs.Prelude.{◌≡◌, ◌++◌, ◌∷◌, [], Some, map, slice_get, OnOk, IfOk};
ghost use Rattle.heap_words.specs.declared.steps.ExprStep.{ExprStep};
ghost use Rattle.machine_code.specs.Instructions.{Test};
ghost use Rattle.machine_code.specs.Reading.{step_of, steps_at};
ghost use Rattle.machine_code.specs.Sound.{HasSides};
ghost use Rattle.safe_tries.specs.Stored.{IsStored};
ghost use Rattle.try_desk.specs.Held.{held};
ghost use Rattle.trial_machine.specs.Machines.{Meets, Turns, KeepsMachine};
ghost use Rattle.trial_machine.specs.Sides.{held_step};
ghost use Rattle.trial_machine.specs.Stores.{Loads};

use crate::machine::{Machine, Turn};
use beside_words::Beside;
use fcp_model::NoMemory;
use guard_tests::{Tested, test};
use heap_words::{ExprStep, TestKind, Words};
use machine_code::Code;
use stored_tries::{after_beside, stands_beside};
use try_desk::Slots;

/// The step at a position of the code's table, with a slot's word as a term in place of the slot's number. No code that was compiled
/// lacks it or names so late a slot; where it does, the answer is `NoMemory`.
fn step_for(slots: &Slots, code: &Code, at: u32) -> Result<ExprStep, NoMemory>
    ensures { IfOk result (λ s. (t : ExprStep) × (slice_get code.now.steps at ≡ Some t) × (s ≡ held_step (held slots.now) (step_of t))) }
{
    match code.step(at) {
        Some(ExprStep::Push(slot)) => {
            if slot > u32::MAX as u64 {
                return Err(NoMemory);
            }
            Ok(ExprStep::Push(slots.term(slot as u32)))
        }
        Some(ExprStep::Apply(operator)) => Ok(ExprStep::Apply(operator)),
        None => Err(NoMemory),
    }
}

/// Puts a step after the others of a line.
fn put_step(line: &mut Vec<ExprStep>, step: ExprStep) -> Result<(), NoMemory>
    ensures { OnOk result (line.new.items ≡ line.old.items ++ step ∷ []) }
{
    match line.push(step) {
        Ok(()) => Ok(()),
        Err(_) => Err(NoMemory),
    }
}

/// Fills a line with so many steps of the code's table from a position on, over the words of slots. After `NoMemory` the first of
/// them may stand there.
fn steps_for(
    line: &mut Vec<ExprStep>,
    slots: &Slots,
    code: &Code,
    from: u32,
    len: u16,
) -> Result<(), NoMemory>
    ensures { OnOk result (line.new.items ≡ map (held_step (held slots.now)) (steps_at code.now.steps from len)) }
{
    line.clear();
    for i in 0..len {
        if i as u32 > u32::MAX - from {
            return Err(NoMemory);
        }
        let step = step_for(slots, code, from + i as u32)?;
        put_step(line, step)?;
    }
    Ok(())
}

impl Machine {
    /// Makes a test on the terms of slots. Where it holds, the slots hold the arguments again; where it fails or waits, the try is
    /// left.
    pub(crate) fn test<W: Words>(
        &mut self,
        code: &Code,
        words: &mut W,
        kind: TestKind,
        left: u32,
        left_len: u16,
        right: u32,
        right_len: u16,
    ) -> Result<Turn, NoMemory>
        requires stored { IsStored W.addresses W.sound W.had W.shown W.later self.old.trail.kept words.old }
        requires meets { Meets self.old (Test kind (steps_at code.now.steps left left_len) (steps_at code.now.steps right right_len)) }
        requires sides { HasSides kind (steps_at code.now.steps left left_len) (steps_at code.now.steps right right_len) }
        ensures between { W.later words.old words.new }
        ensures loaded { OnOk result (Loads W.addresses W.sound W.had W.shown W.later W.gave self.old.trail.kept words.old
            self.new.trail.kept words.new) }
        ensures turns { IfOk result (Turns self.old self.new
            (Test kind (steps_at code.now.steps left left_len) (steps_at code.now.steps right right_len))) }
        ensures keeps { KeepsMachine self.old self.new }
    {
        steps_for(&mut self.left, &self.desk.slots, code, left, left_len)?;
        steps_for(&mut self.right, &self.desk.slots, code, right, right_len)?;
        stands_beside(words);
        self.trail.once();
        let mut beside = Beside {
            words,
            own: self.desk.pieces.words(),
        };
        let lists = &mut self.tests;
        let trail = &mut self.trail;
        let answer = test(
            lists,
            trail,
            &mut beside,
            kind,
            self.left.as_slice(),
            self.right.as_slice(),
        )?;
        after_beside(words);
        match answer {
            Tested::Holds => {
                self.desk.rest(self.base);
                Ok(Turn::On)
            }
            Tested::Not => {
                self.leave(words, self.desk.behind)?;
                Ok(Turn::Left)
            }
            Tested::Wait => {
                self.leave(words, false)?;
                Ok(Turn::Left)
            }
        }
    }
}
