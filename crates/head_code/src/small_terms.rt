//! Code that unifies a slot with a small term of a head, which is put only where the goal's side cannot be opened.
ghost use Rattle.std.specs.Prelude.{◌≡◌, ◌+◌, IfOk, OnOk};
ghost use Rattle.fcp_model.specs.Terms.{var};
ghost use Rattle.fcp_model.specs.HeadPairs.{mark, marks};
ghost use Rattle.fcp_model.specs.Translation.{term_of};
ghost use Rattle.head_code.specs.Emitting.{Emits, after};
ghost use Rattle.head_code.specs.TermCode.{parts_of};
ghost use Rattle.head_code.specs.HeadCode.{unmade, ask, unopened, get_unmade, gets_unmade};

use crate::emitter::{Emitter, up};
use crate::terms::{part_count, put};
use fcp_model::{NoMemory, Term};
use machine_code::Instr;
use std::alloc::Global;

/// The instruction that opens a pair, or goes on at `put`.
fn get_cons(slot: u32, left: u32, right: u32, put: u32) -> Instr
    ensures { result ≡ Instr.GetCons slot left right put }
{
    Instr::GetCons {
        slot,
        left,
        right,
        put,
    }
}

/// The instruction that opens a tuple, or goes on at `put`.
fn get_tuple(slot: u32, first: u32, parts: u8, put: u32) -> Instr
    ensures { result ≡ Instr.GetTuple slot first parts put }
{
    Instr::GetTuple {
        slot,
        first,
        parts,
        put,
    }
}

/// Unifies a slot with a term, which is put into the slot `next`.
fn ask(alloc: Global, code: &mut Emitter, term: &Term, slot: u32, next: u32) -> Result<(), NoMemory>
    ensures { OnOk result (Emits code.old code.new (ask slot next unmade (term_of term.now))) }
{
    put(alloc, code, term, next, up(next, 1)?)?;
    code.emit(Instr::Unify {
        left: slot,
        right: next,
    })?;
    Ok(())
}

/// The same, with the greatest variable met by then as the answer.
fn whole(
    alloc: Global,
    code: &mut Emitter,
    term: &Term,
    slot: u32,
    next: u32,
    met: u8,
) -> Result<u8, NoMemory>
    ensures code { OnOk result (Emits code.old code.new (ask slot next unmade (term_of term.now))) }
    ensures met { IfOk result (λ m. m ≡ met) }
{
    ask(alloc, code, term, slot, next)?;
    Ok(met)
}

/// The code for a value that cannot be opened, which code for one that was opened jumps over. Answers where it begins.
fn unopened(
    alloc: Global,
    code: &mut Emitter,
    term: &Term,
    slot: u32,
    next: u32,
) -> Result<u32, NoMemory>
    ensures code { OnOk result (Emits code.old code.new (unopened (after code.old) slot next (term_of term.now))) }
    ensures begin { IfOk result (λ at. at ≡ after code.old + 1) }
{
    let jump = code.instrs.len();
    code.emit(Instr::Jump { to: 0 })?;
    let begin = code.position()?;
    ask(alloc, code, term, slot, next)?;
    let to = code.position()?;
    code.patch(jump, Instr::Jump { to });
    Ok(begin)
}

/// An occurrence of a variable, which is the first one where none of its number was met.
fn open_variable(
    code: &mut Emitter,
    number: u8,
    slot: u32,
    next: u32,
    met: u8,
) -> Result<u8, NoMemory>
    ensures code { OnOk result (Emits code.old code.new (get_unmade (after code.old) slot next met (var number))) }
    ensures met { IfOk result (λ m. m ≡ (mark met (var number)).met) }
{
    if met < number {
        code.emit(Instr::GetFirst { slot, var: number })?;
        return Ok(number);
    }
    code.emit(Instr::PutVar {
        slot: next,
        var: number,
        ro: false,
    })?;
    code.emit(Instr::Unify {
        left: slot,
        right: next,
    })?;
    Ok(met)
}

/// Unifies a slot with a small term. The slots from `next` on are free. Answers the greatest variable met so far.
#[cycle(small)]
pub fn open_small(
    alloc: Global,
    code: &mut Emitter,
    term: &Term,
    slot: u32,
    next: u32,
    met: u8,
) -> Result<u8, NoMemory>
    ensures code { OnOk result (Emits code.old code.new (get_unmade (after code.old) slot next met (term_of term.now))) }
    ensures met { IfOk result (λ m. m ≡ (mark met (term_of term.now)).met) }
{
    match term {
        Term::Int(_) => whole(alloc, code, term, slot, next, met),
        Term::Str(_) => whole(alloc, code, term, slot, next, met),
        Term::Nil => whole(alloc, code, term, slot, next, met),
        Term::Var(number) => open_variable(code, *number, slot, next, met),
        Term::Ro(number) => whole(alloc, code, term, slot, next, met.max(*number)),
        Term::Cons(head, tail) => {
            let start = code.instrs.len();
            let (right, free) = (up(next, 1)?, up(next, 2)?);
            code.emit(get_cons(slot, next, right, 0))?;
            let first = open_small(alloc, code, head.get(), next, free, met)?;
            let last = open_small(alloc, code, tail.get(), right, free, first)?;
            let put = unopened(alloc, code, term, slot, next)?;
            code.patch(start, get_cons(slot, next, right, put));
            Ok(last)
        }
        Term::Tuple(terms) => {
            let start = code.instrs.len();
            let parts = part_count(terms.as_slice())?;
            let free = up(next, parts as u32)?;
            code.emit(get_tuple(slot, next, parts, 0))?;
            let last = open_small_parts(alloc, code, terms.as_slice(), next, free, met)?;
            let put = unopened(alloc, code, term, slot, next)?;
            code.patch(start, get_tuple(slot, next, parts, put));
            Ok(last)
        }
    }
}

/// Unifies the slots from `slot` on with the parts of a small tuple.
#[cycle(small)]
fn open_small_parts(
    alloc: Global,
    code: &mut Emitter,
    terms: &[Term],
    slot: u32,
    next: u32,
    met: u8,
) -> Result<u8, NoMemory>
    ensures code { OnOk result (Emits code.old code.new (gets_unmade (after code.old) slot next met (parts_of terms.now))) }
    ensures met { IfOk result (λ m. m ≡ (marks met (parts_of terms.now)).met) }
{
    let mut at = slot;
    let mut last = met;
    for term in terms {
        last = open_small(alloc, code, term, at, next, last)?;
        at = up(at, 1)?;
    }
    Ok(last)
}
