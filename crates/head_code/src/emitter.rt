//! Code in the making.
ghost use Rattle.std.specs.Prelude.{◌≡◌, ◌+◌, ◌<◌, ◌≤ℤ◌, pos, negsuc, nat_eq, [], ◌∷◌, Some, IfOk, OnOk, length, map, slice_get, slice_set};
ghost use Rattle.indexmap.specs.IndexSet.{insert_key};
ghost use Rattle.heap_words.specs.Cells.{IsCell};
ghost use Rattle.fcp_model.specs.Terms.{number};
ghost use Rattle.machine_code.specs.Instructions.{PutWord, Test};
ghost use Rattle.head_code.specs.Emitting.{Emits, plain_op, IsPlain, IsConstant, ops_of, IsFine};
ghost use Rattle.machine_code.specs.Reading.{step_of, constant, wide, low_bits};

use fcp_model::NoMemory;
use heap_words::{Cell, ExprStep, TestKind, encode};
use indexmap::IndexSet;
use machine_code::Instr;
use std::alloc::Global;

/// The instructions so far, with the steps and the constants that they name.
#[derive(Drop)]
pub struct Emitter {
    pub instrs: Vec<Instr>,
    pub steps: Vec<ExprStep>,
    pub smalls: IndexSet<u64>,
}

impl Emitter {
    /// No code.
    pub fn new(alloc: Global) -> Emitter
        ensures ops { ops_of result ≡ [] }
        ensures fine { IsFine result }
    {
        Emitter {
            instrs: Vec::new(alloc),
            steps: Vec::new(alloc),
            smalls: IndexSet::new(alloc),
        }
    }

    /// One more instruction, which names no constant and no steps.
    #[tactic(auto, using(crate::proofs::Emitting::emits_plain))]
    pub fn emit(&mut self, instr: Instr) -> Result<(), NoMemory>
        requires { IsPlain instr }
        ensures { OnOk result (Emits self.old self.new (plain_op instr ∷ [])) }
    {
        match self.instrs.push(instr) {
            Ok(()) => Ok(()),
            Err(_) => Err(NoMemory),
        }
    }

    /// Puts a string, `[]` or a Small into a slot.
    #[tactic(auto, using(crate::proofs::Emitting::emits_cell))]
    pub fn emit_cell(&mut self, slot: u32, cell: Cell) -> Result<(), NoMemory>
        requires fits { IsCell cell }
        requires constant { IsConstant (Some cell) }
        ensures { OnOk result (Emits self.old self.new (PutWord slot (constant [] (Some cell)) ∷ [])) }
    {
        match self.instrs.push(Instr::PutWord {
            slot,
            word: encode(cell),
        }) {
            Ok(()) => Ok(()),
            Err(_) => Err(NoMemory),
        }
    }

    /// The position of a Small in the list, which keeps equal ones once.
    fn small(&mut self, word: u64) -> Result<u32, NoMemory>
        ensures smalls { OnOk result (self.new.smalls.keys ≡ insert_key nat_eq self.old.smalls.keys word) }
        ensures instrs { self.new.instrs ≡ self.old.instrs }
        ensures steps { self.new.steps ≡ self.old.steps }
        ensures there { IfOk result (λ at. slice_get self.new.smalls.keys at ≡ Some word) }
    {
        let Ok((at, _)) = self.smalls.insert_full(word) else {
            return Err(NoMemory);
        };
        match u32::try_from(at) {
            Ok(at) => Ok(at),
            Err(_) => Err(NoMemory),
        }
    }

    /// Puts a number into a slot.
    pub fn emit_number(&mut self, slot: u32, value: i64) -> Result<(), NoMemory>
        ensures { OnOk result (Emits self.old self.new (PutWord slot (number value) ∷ [])) }
    {
        if -HALF <= value && value < HALF {
            return self.emit_cell(slot, Cell::Small(value));
        }
        let (low, high) = split(value);
        let at = self.small(encode(Cell::Small(low)))?;
        match self.instrs.push(Instr::PutWord {
            slot,
            word: encode(Cell::Wide(at, high)),
        }) {
            Ok(()) => Ok(()),
            Err(_) => Err(NoMemory),
        }
    }
}

/// Small numbers lie from -2^55 to 2^55 - 1.
const HALF: i64 = 0x80_0000_0000_0000;

/// How many numbers 56 bits have.
const LOW: i64 = 0x100_0000_0000_0000;

/// The lower 56 bits of a number, as a signed number, and its upper eight.
fn split(value: i64) -> (i64, u8)
    ensures low { (negsuc 0x7fffffffffffff ≤ℤ result.0) × (result.0 ≤ℤ pos 0x7fffffffffffff) }
    ensures value { wide result.0 result.1 ≡ value }
{
    if value < 0 {
        let size = value.unsigned_abs() - 1;
        (
            signed(LOW - 1 - (size % LOW as u64) as i64),
            255 - (size / LOW as u64) as u8,
        )
    } else {
        (signed(value % LOW), (value / LOW) as u8)
    }
}

/// A number of 56 bits as a signed one.
fn signed(bits: i64) -> i64
    requires { (pos 0 ≤ℤ bits) × (bits ≤ℤ pos 0xffffffffffffff) }
    ensures low { (negsuc 0x7fffffffffffff ≤ℤ result) × (result ≤ℤ pos 0x7fffffffffffff) }
    ensures value { low_bits result ≡ bits }
{
    if bits < HALF { bits } else { bits - LOW }
}

impl Emitter {
    /// A test of what the steps of two sides build.
    pub fn emit_test(
        &mut self,
        kind: TestKind,
        left: Vec<ExprStep>,
        right: Vec<ExprStep>,
    ) -> Result<(), NoMemory>
        ensures { OnOk result (Emits self.old self.new (Test kind (map step_of left.items) (map step_of right.items) ∷ [])) }
    {
        let Ok(from) = u32::try_from(self.steps.len()) else {
            return Err(NoMemory);
        };
        let Ok(left_len) = u16::try_from(left.len()) else {
            return Err(NoMemory);
        };
        let Ok(right_len) = u16::try_from(right.len()) else {
            return Err(NoMemory);
        };
        let behind = up(from, left_len as u32)?;
        let mut left = left;
        let mut right = right;
        let Ok(()) = self.steps.append(&mut left) else {
            return Err(NoMemory);
        };
        let Ok(()) = self.steps.append(&mut right) else {
            return Err(NoMemory);
        };
        let Ok(()) = self.instrs.push(Instr::Test {
            kind,
            left: from,
            left_len,
            right: behind,
            right_len,
        })
        else {
            return Err(NoMemory);
        };
        Ok(())
    }

    /// Writes an instruction that names no constant and no steps in place of the one at a position.
    pub fn patch(&mut self, at: usize, instr: Instr)
        requires there { at < length self.old.instrs.items }
        requires plain { IsPlain instr }
        ensures instrs { self.new.instrs.items ≡ slice_set self.old.instrs.items at instr }
        ensures smalls { self.new.smalls.keys ≡ self.old.smalls.keys }
        ensures steps { self.new.steps.items ≡ self.old.steps.items }
    {
        self.instrs[at] = instr;
    }

    /// The position of the next instruction.
    pub fn position(&self) -> Result<u32, NoMemory>
        ensures { IfOk result (λ n. n ≡ length self.now.instrs.items) }
    {
        match u32::try_from(self.instrs.len()) {
            Ok(position) => Ok(position),
            Err(_) => Err(NoMemory),
        }
    }
}

/// A sum of 32 bits; there is no memory for code of more slots or positions.
pub fn up(number: u32, by: u32) -> Result<u32, NoMemory>
    ensures { IfOk result (λ n. n ≡ number + by) }
{
    match number.checked_add(by) {
        Some(sum) => Ok(sum),
        None => Err(NoMemory),
    }
}
