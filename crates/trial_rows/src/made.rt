//! Code that is made of instructions, one by one.
ghost use Rattle.std.specs.Prelude.{◌≡◌, ◌+◌, ◌≤◌, [], true};
ghost use Rattle.heap_words.specs.Cells.{decoded};
ghost use Rattle.machine_code.specs.Reading.{WordFits, HasWord};
ghost use Rattle.trial_rows.specs.Made.{MayStand, MayAllStand};

use fcp_model::{ArithOp, NoMemory, ProcedureName, Sym};
use heap_words::{Cell, decode};
use indexmap::IndexSet;
use machine_code::{ClauseSize, Code, Instr, Procedure};
use std::alloc::Global;

/// Whether so many slots from `first` on are below a number.
fn are_below(first: u32, parts: u8, slots: u32) -> bool
    ensures { result ≡ true → first + parts ≤ slots }
{
    u64::from(first) + u64::from(parts) <= u64::from(slots)
}

/// Whether a word names no element of a list of Smalls.
fn names_no_small(word: u64) -> bool
    ensures { result ≡ true → WordFits [] (decoded word) }
{
    !matches!(decode(word), Some(Cell::Wide(_, _)))
}

/// Whether a tuple of so many parts has a word, or an operation of so many operands.
fn has_word(parts: u8, op: Option<ArithOp>) -> bool
    ensures { result ≡ true → HasWord parts op }
{
    match op {
        None => parts < 66,
        Some(_) => parts == 2,
    }
}

/// Whether an instruction may stand at a position in code of so many slots, which has no steps and no Smalls. First occurrences and
/// tests may not: what is asked of them is asked of more than one instruction.
fn may_stand(at: u32, instr: &Instr, slots: u32) -> bool
    ensures { result ≡ true → MayStand at slots instr.now }
{
    match *instr {
        Instr::Try { next, .. } => at < next,
        Instr::GetFirst { .. } => false,
        Instr::GetCons {
            slot,
            left,
            right,
            put,
        } => at < put && slot < slots && left < slots && right < slots,
        Instr::GetTuple {
            slot,
            first,
            parts,
            put,
        } => at < put && slot < slots && are_below(first, parts, slots),
        Instr::PutVar { slot, .. } => slot < slots,
        Instr::PutWord { slot, word } => slot < slots && names_no_small(word),
        Instr::PutCons { slot, left, right } => slot < slots && left < slots && right < slots,
        Instr::PutTuple {
            slot,
            first,
            parts,
            op,
        } => slot < slots && are_below(first, parts, slots) && has_word(parts, op),
        Instr::Unify { left, right } => left < slots && right < slots,
        Instr::Jump { to } => at < to,
        Instr::Test { .. } => false,
        Instr::Otherwise => true,
        Instr::Spawn { first, parts, .. } => are_below(first, parts, slots),
        Instr::Commit => true,
    }
}

/// Whether all of these may stand one after another, from a position on.
fn may_all_stand(instrs: &[Instr], slots: u32) -> bool
    ensures { result ≡ true → MayAllStand 0 slots instrs.now }
{
    let mut at: u32 = 0;
    for instr in instrs {
        if !may_stand(at, instr, slots) {
            return false;
        }
        let Some(next) = at.checked_add(1) else {
            return false;
        };
        at = next;
    }
    true
}

/// The code of one procedure with an argument, whose clauses have so many variables each, and which names so many slots; `None` where its
/// instructions may not stand so.
pub(crate) fn made_code(
    alloc: Global,
    instrs: &[Instr],
    vars: &[u8],
    slots: u32,
) -> Result<Option<Code>, NoMemory> {
    if !may_all_stand(instrs, slots) {
        return Ok(None);
    }
    let mut clauses = Vec::new(alloc);
    for count in vars {
        let Ok(()) = clauses.push(ClauseSize {
            vars: *count,
            cells: 0,
        }) else {
            return Err(NoMemory);
        };
    }
    let procedure = Procedure {
        name: ProcedureName {
            name: Sym(9),
            arity: 1,
        },
        first: 0,
        clauses,
    };
    let mut procedures = Vec::new(alloc);
    let Ok(()) = procedures.push(procedure) else {
        return Err(NoMemory);
    };
    let Ok(owned) = Vec::from_slice(alloc, instrs) else {
        return Err(NoMemory);
    };
    Ok(Some(Code::of(
        owned,
        Vec::new(alloc),
        IndexSet::new(alloc),
        procedures,
        slots,
    )))
}
