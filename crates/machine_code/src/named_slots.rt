//! The slots that code names.
ghost use Rattle.std.specs.Prelude.{◌+◌, ◌<◌, ◌≤◌, ℕ, IfOk};
ghost use Rattle.machine_code.specs.Each.{Each};
ghost use Rattle.machine_code.specs.Sound.{NamesBelow, StepsBelow};

use crate::Instr;
use fcp_model::NoMemory;
use heap_words::ExprStep;

/// A number above each slot that an instruction names, the steps of a test left out.
fn above(instr: &Instr) -> u64
    ensures { (n : ℕ) → result ≤ n → NamesBelow n instr.now }
{
    match instr {
        Instr::Try { .. } => 0,
        Instr::GetFirst { slot, .. } => u64::from(*slot) + 1,
        Instr::GetCons {
            slot,
            left,
            right,
            ..
        } => above_three(*slot, *left, *right),
        Instr::GetTuple {
            slot,
            first,
            parts,
            ..
        } => above_parts(*slot, *first, *parts),
        Instr::PutVar { slot, .. } => u64::from(*slot) + 1,
        Instr::PutWord { slot, .. } => u64::from(*slot) + 1,
        Instr::PutCons { slot, left, right } => above_three(*slot, *left, *right),
        Instr::PutTuple {
            slot,
            first,
            parts,
            ..
        } => above_parts(*slot, *first, *parts),
        Instr::Unify { left, right } => above_three(*left, *right, *right),
        Instr::Jump { .. } => 0,
        Instr::Test { .. } => 0,
        Instr::Otherwise => 0,
        Instr::Spawn { first, parts, .. } => u64::from(*first) + u64::from(*parts),
        Instr::Commit => 0,
    }
}

/// A number above three slots.
fn above_three(a: u32, b: u32, c: u32) -> u64
    ensures a { a < result }
    ensures b { b < result }
    ensures c { c < result }
{
    u64::from(a.max(b).max(c)) + 1
}

/// A number above a slot and so many slots from another one on.
fn above_parts(slot: u32, first: u32, parts: u8) -> u64
    ensures slot { slot < result }
    ensures parts { first + parts ≤ result }
{
    (u64::from(slot) + 1).max(u64::from(first) + u64::from(parts))
}

/// A number above the slot that a step names.
fn above_step(step: &ExprStep) -> Result<u64, NoMemory>
    ensures { IfOk result (λ a. (n : ℕ) → a ≤ n → StepsBelow n step.now) }
{
    match step {
        ExprStep::Push(slot) => match slot.checked_add(1) {
            Some(next) => Ok(next),
            None => Err(NoMemory),
        },
        ExprStep::Apply(_) => Ok(0),
    }
}

/// A number above each slot that instructions and steps name.
pub fn slots_named(instrs: &[Instr], steps: &[ExprStep]) -> Result<u32, NoMemory>
    ensures instrs { IfOk result (λ n. Each (NamesBelow n) instrs.now) }
    ensures steps { IfOk result (λ n. Each (StepsBelow n) steps.now) }
{
    let mut slots = 0;
    for instr in instrs {
        slots = slots.max(above(instr));
    }
    for step in steps {
        slots = slots.max(above_step(step)?);
    }
    match u32::try_from(slots) {
        Ok(slots) => Ok(slots),
        Err(_) => Err(NoMemory),
    }
}
