//! Code that puts terms into slots, parts before wholes.
ghost use Rattle.std.specs.Prelude.{◌≡◌, ◌+◌, ◌<◌, ◌≤◌, [], ◌∷◌, Some, length, IfOk, OnOk};
ghost use Rattle.heap_words.specs.Cells.{IsCell};
ghost use Rattle.fcp_model.specs.Terms.{number, tuple};
ghost use Rattle.machine_code.specs.Instructions.{PutWord, PutVar};
ghost use Rattle.machine_code.specs.Reading.{constant};
ghost use Rattle.fcp_model.specs.Translation.{term_of};
ghost use Rattle.head_code.specs.Emitting.{Emits, IsConstant};
ghost use Rattle.head_code.specs.TermCode.{parts_of, put, puts, width, widths};

use crate::emitter::{Emitter, up};
use fcp_model::{NoMemory, Sym, Term};
use heap_words::Cell;
use machine_code::Instr;
use std::alloc::Global;

/// How many parts a tuple has; there is no memory for one of more than 65, which no term that was read has.
pub fn part_count(terms: &[Term]) -> Result<u8, NoMemory>
    ensures count { IfOk result (λ n. n ≡ length terms.now) }
    ensures few { IfOk result (λ n. n < 66) }
{
    match u8::try_from(terms.len()) {
        Ok(count) => {
            if count > 65 {
                return Err(NoMemory);
            }
            Ok(count)
        }
        Err(_) => Err(NoMemory),
    }
}

/// Puts a number into a slot; there are no parts.
fn put_number(code: &mut Emitter, value: i64, slot: u32, next: u32) -> Result<u32, NoMemory>
    ensures code { OnOk result (Emits code.old code.new (PutWord slot (number value) ∷ [])) }
    ensures next { IfOk result (λ n. n ≡ next) }
{
    code.emit_number(slot, value)?;
    Ok(next)
}

/// Puts a string or `[]` into a slot; there are no parts.
fn put_cell(code: &mut Emitter, cell: Cell, slot: u32, next: u32) -> Result<u32, NoMemory>
    requires fits { IsCell cell }
    requires constant { IsConstant (Some cell) }
    ensures code { OnOk result (Emits code.old code.new (PutWord slot (constant [] (Some cell)) ∷ [])) }
    ensures next { IfOk result (λ n. n ≡ next) }
{
    code.emit_cell(slot, cell)?;
    Ok(next)
}

/// Puts an occurrence of a variable into a slot; there are no parts.
fn put_variable(
    code: &mut Emitter,
    var: u8,
    ro: bool,
    slot: u32,
    next: u32,
) -> Result<u32, NoMemory>
    ensures code { OnOk result (Emits code.old code.new (PutVar slot var ro ∷ [])) }
    ensures next { IfOk result (λ n. n ≡ next) }
{
    code.emit(Instr::PutVar { slot, var, ro })?;
    Ok(next)
}

/// Puts a term into a slot, and its parts into the slots from `next` on. Answers the first slot after those.
#[cycle(terms)]
pub fn put(
    alloc: Global,
    code: &mut Emitter,
    term: &Term,
    slot: u32,
    next: u32,
) -> Result<u32, NoMemory>
    ensures code { OnOk result (Emits code.old code.new (put slot next (term_of term.now))) }
    ensures next { IfOk result (λ n. n ≡ next + width (term_of term.now)) }
{
    match term {
        Term::Int(number) => put_number(code, *number, slot, next),
        Term::Str(string) => {
            let Sym(name) = *string;
            put_cell(code, Cell::Str(Sym(name)), slot, next)
        }
        Term::Nil => put_cell(code, Cell::Nil, slot, next),
        Term::Var(var) => put_variable(code, *var, false, slot, next),
        Term::Ro(var) => put_variable(code, *var, true, slot, next),
        Term::Cons(head, tail) => {
            let (left, right) = (next, up(next, 1)?);
            let behind = put(alloc, code, head.get(), next, up(next, 2)?)?;
            let end = put_rest(alloc, code, tail.get(), right, behind)?;
            code.emit(Instr::PutCons { slot, left, right })?;
            Ok(end)
        }
        Term::Tuple(parts) => {
            let count = part_count(parts.as_slice())?;
            let end = put_parts(alloc, code, parts.as_slice(), next, up(next, count as u32)?)?;
            code.emit(Instr::PutTuple {
                slot,
                first: next,
                parts: count,
                op: None,
            })?;
            Ok(end)
        }
    }
}

/// Puts a list's rest, in a loop, since a list may be long: the elements from the left, and then the pairs from the right.
#[cycle(terms)]
fn put_rest(
    alloc: Global,
    code: &mut Emitter,
    list: &Term,
    slot: u32,
    next: u32,
) -> Result<u32, NoMemory>
    ensures code { OnOk result (Emits code.old code.new (put slot next (term_of list.now))) }
    ensures next { IfOk result (λ n. n ≡ next + width (term_of list.now)) }
{
    let mut pairs = Vec::new(alloc);
    let mut rest = list;
    let mut at = slot;
    let mut free = next;
    while let Term::Cons(head, tail) = rest {
        let Ok(()) = pairs.push((at, free)) else {
            return Err(NoMemory);
        };
        let right = up(free, 1)?;
        free = put(alloc, code, head.get(), free, up(free, 2)?)?;
        at = right;
        rest = tail.get();
    }
    let end = put(alloc, code, rest, at, free)?;
    while let Some((whole, left)) = pairs.pop() {
        code.emit(Instr::PutCons {
            slot: whole,
            left,
            right: up(left, 1)?,
        })?;
    }
    Ok(end)
}

/// Puts terms into the slots from `slot` on, and their parts into those from `next` on.
#[cycle(terms)]
pub fn put_parts(
    alloc: Global,
    code: &mut Emitter,
    terms: &[Term],
    slot: u32,
    next: u32,
) -> Result<u32, NoMemory>
    ensures code { OnOk result (Emits code.old code.new (puts slot next (parts_of terms.now))) }
    ensures next { IfOk result (λ n. n ≡ next + widths (parts_of terms.now)) }
{
    let mut at = slot;
    let mut free = next;
    for term in terms {
        free = put(alloc, code, term, at, free)?;
        at = up(at, 1)?;
    }
    Ok(free)
}

/// How many slots the parts of a term take. A list's rest is walked in a loop; calls nest as deep as brackets.
#[cycle(widths)]
pub fn width(term: &Term) -> Result<u32, NoMemory>
    ensures { IfOk result (λ n. n ≡ width (term_of term.now)) }
{
    let mut slots = 0;
    let mut rest = term;
    while let Term::Cons(head, tail) = rest {
        slots = up(up(slots, 2)?, width(head.get())?)?;
        rest = tail.get();
    }
    match rest {
        Term::Cons(_, _) => unreachable!(),
        Term::Tuple(terms) => up(slots, widths(terms.as_slice())?),
        Term::Int(_) => Ok(slots),
        Term::Str(_) => Ok(slots),
        Term::Nil => Ok(slots),
        Term::Var(_) => Ok(slots),
        Term::Ro(_) => Ok(slots),
    }
}

/// The same for a tuple's parts together, with one slot for each.
#[cycle(widths)]
fn widths(terms: &[Term]) -> Result<u32, NoMemory>
    ensures { IfOk result (λ n. n ≡ width (tuple (parts_of terms.now))) }
{
    let mut slots = 0;
    for term in terms {
        slots = up(up(slots, 1)?, width(term)?)?;
    }
    Ok(slots)
}
