//! Code that unifies a goal's arguments with a clause's head.
ghost use Rattle.std.specs.Prelude.{◌≡◌, ◌<◌, ◌+◌, ◌-◌, [], ◌∷◌, length, map, IfOk, OnOk};
ghost use Rattle.machine_code.specs.Instructions.{GetCons, GetTuple, Unify, Jump};
ghost use Rattle.fcp_model.specs.HeadPairs.{mark, marks};
ghost use Rattle.fcp_model.specs.Translation.{term_of};
ghost use Rattle.fcp_model.specs.Terms.{var};
ghost use Rattle.head_code.specs.Emitting.{Emits, after};
ghost use Rattle.head_code.specs.TermCode.{parts_of, width, widths};
ghost use Rattle.head_code.specs.OpenCode.{open_size, open_sizes, first_part, second_part, tuple_part, next_part};
ghost use Rattle.head_code.specs.HeadCode.{get_made, gets_made};

use crate::emitter::{Emitter, up};
use crate::terms::part_count;
use fcp_model::{NoMemory, Term};
use machine_code::Instr;
use std::alloc::Global;

/// Where the code of a head's term begins. `slot` is unified with the term, which stands in the slot `stock`, its parts in the slots
/// from `parts` on. The slots from `next` on are free, and `met` is the greatest variable met so far.
#[derive(Clone, Copy, Debug, PartialEq, Eq)]
pub struct Opening {
    pub slot: u32,
    pub next: u32,
    pub stock: u32,
    pub parts: u32,
    pub met: u8,
}

/// Where the code of a head's term leaves off: the greatest variable met so far, and the first slot after the term's parts.
#[derive(Clone, Copy, Debug, PartialEq, Eq)]
pub struct Opened {
    pub met: u8,
    pub behind: u32,
}

/// How many instructions unify a head's term that stands in slots. The calls nest as deep as the brackets.
#[cycle(sizes)]
pub fn opened_size(term: &Term) -> Result<u32, NoMemory>
    ensures { IfOk result (λ n. n ≡ open_size (term_of term.now)) }
{
    let mut size = 0;
    let mut rest = term;
    while let Term::Cons(head, tail) = rest {
        size = up(up(size, 3)?, opened_size(head.get())?)?;
        rest = tail.get();
    }
    match rest {
        Term::Cons(_, _) => unreachable!(),
        Term::Tuple(terms) => up(up(size, 3)?, opened_sizes(terms.as_slice())?),
        Term::Int(_) => up(size, 1),
        Term::Str(_) => up(size, 1),
        Term::Nil => up(size, 1),
        Term::Var(_) => up(size, 1),
        Term::Ro(_) => up(size, 1),
    }
}

/// The same for several terms together.
#[cycle(sizes)]
fn opened_sizes(terms: &[Term]) -> Result<u32, NoMemory>
    ensures { IfOk result (λ n. n ≡ open_sizes (parts_of terms.now)) }
{
    let mut size = 0;
    for term in terms {
        size = up(size, opened_size(term)?)?;
    }
    Ok(size)
}

/// Unifies a slot as a whole.
fn whole(code: &mut Emitter, at: Opening, met: u8) -> Result<Opened, NoMemory>
    ensures code { OnOk result (Emits code.old code.new (Unify at.slot at.stock ∷ [])) }
    ensures met { IfOk result (λ o. o.met ≡ met) }
    ensures behind { IfOk result (λ o. o.behind ≡ at.parts) }
{
    code.emit(Instr::Unify {
        left: at.slot,
        right: at.stock,
    })?;
    Ok(Opened {
        met,
        behind: at.parts,
    })
}

/// Opens a pair by the first of so many instructions. Answers where its first part begins.
fn open_pair(code: &mut Emitter, at: Opening, size: u32) -> Result<Opening, NoMemory>
    requires { 0 < size }
    ensures code { OnOk result (Emits code.old code.new (GetCons at.slot at.next (at.next + 1) (after code.old + (size - 1)) ∷ [])) }
    ensures first { IfOk result (λ o. o ≡ first_part at) }
{
    let put = up(code.position()?, size - 1)?;
    code.emit(Instr::GetCons {
        slot: at.slot,
        left: at.next,
        right: up(at.next, 1)?,
        put,
    })?;
    Ok(Opening {
        slot: at.next,
        next: up(at.next, 2)?,
        stock: at.parts,
        parts: up(at.parts, 2)?,
        met: at.met,
    })
}

/// Where a pair's second part begins, after the first one.
fn second(at: Opening, first: Opened) -> Result<Opening, NoMemory>
    ensures { IfOk result (λ o. o ≡ second_part at first) }
{
    Ok(Opening {
        slot: up(at.next, 1)?,
        next: up(at.next, 2)?,
        stock: up(at.parts, 1)?,
        parts: first.behind,
        met: first.met,
    })
}

/// Opens a tuple by the first of so many instructions. Answers where its first part begins.
fn open_tuple(
    code: &mut Emitter,
    at: Opening,
    terms: &[Term],
    size: u32,
) -> Result<Opening, NoMemory>
    requires { 0 < size }
    ensures code { OnOk result (Emits code.old code.new (GetTuple at.slot at.next (length terms.now) (after code.old + (size - 1)) ∷ [])) }
    ensures first { IfOk result (λ o. o ≡ tuple_part (length terms.now) at) }
{
    let put = up(code.position()?, size - 1)?;
    let parts = part_count(terms)?;
    code.emit(Instr::GetTuple {
        slot: at.slot,
        first: at.next,
        parts,
        put,
    })?;
    Ok(Opening {
        slot: at.next,
        next: up(at.next, parts as u32)?,
        stock: at.parts,
        parts: up(at.parts, parts as u32)?,
        met: at.met,
    })
}

/// Where the next part of a tuple begins.
fn next(at: Opening, opened: Opened) -> Result<Opening, NoMemory>
    ensures { IfOk result (λ o. o ≡ next_part at opened) }
{
    Ok(Opening {
        slot: up(at.slot, 1)?,
        next: at.next,
        stock: up(at.stock, 1)?,
        parts: opened.behind,
        met: opened.met,
    })
}

/// Ends the code of a value that was opened; where it could not be, the term is unified as a whole.
fn shut(code: &mut Emitter, at: Opening) -> Result<(), NoMemory>
    ensures { OnOk result (Emits code.old code.new (Jump (after code.old + 2) ∷ Unify at.slot at.stock ∷ [])) }
{
    let to = up(code.position()?, 2)?;
    code.emit(Instr::Jump { to })?;
    code.emit(Instr::Unify {
        left: at.slot,
        right: at.stock,
    })?;
    Ok(())
}

/// An occurrence of a variable, which is the first one where none of its number was met.
fn open_variable(code: &mut Emitter, at: Opening, number: u8) -> Result<Opened, NoMemory>
    ensures code { OnOk result (Emits code.old code.new (get_made (after code.old) at.slot at.next at.stock at.parts at.met (var number))) }
    ensures met { IfOk result (λ o. o.met ≡ (mark at.met (var number)).met) }
    ensures behind { IfOk result (λ o. o.behind ≡ at.parts) }
{
    if at.met < number {
        code.emit(Instr::GetFirst {
            slot: at.slot,
            var: number,
        })?;
        return Ok(Opened {
            met: number,
            behind: at.parts,
        });
    }
    whole(code, at, at.met)
}

/// Unifies a slot with a head's term that stands in slots. `size` is the number of instructions that this takes.
#[cycle(heads)]
pub fn open(
    alloc: Global,
    code: &mut Emitter,
    term: &Term,
    at: Opening,
    size: u32,
) -> Result<Opened, NoMemory>
    requires { size ≡ open_size (term_of term.now) }
    ensures code { OnOk result (Emits code.old code.new (get_made (after code.old) at.slot at.next at.stock at.parts at.met (term_of term.now))) }
    ensures met { IfOk result (λ o. o.met ≡ (mark at.met (term_of term.now)).met) }
    ensures behind { IfOk result (λ o. o.behind ≡ at.parts + width (term_of term.now)) }
{
    match term {
        Term::Int(_) => whole(code, at, at.met),
        Term::Str(_) => whole(code, at, at.met),
        Term::Nil => whole(code, at, at.met),
        Term::Var(number) => open_variable(code, at, *number),
        Term::Ro(number) => whole(code, at, at.met.max(*number)),
        Term::Cons(head, tail) => {
            let first_size = opened_size(head.get())?;
            let left = open_pair(code, at, size)?;
            let first = open(alloc, code, head.get(), left, first_size)?;
            let right = second(at, first)?;
            let rest = open_rest(alloc, code, tail.get(), right, size - 3 - first_size)?;
            shut(code, at)?;
            Ok(rest)
        }
        Term::Tuple(terms) => {
            let first = open_tuple(code, at, terms.as_slice(), size)?;
            let rest = open_parts(alloc, code, terms.as_slice(), first)?;
            shut(code, at)?;
            Ok(rest)
        }
    }
}

/// Unifies a slot with a list's rest, in a loop, since a list may be long.
#[cycle(heads)]
fn open_rest(
    alloc: Global,
    code: &mut Emitter,
    list: &Term,
    at: Opening,
    size: u32,
) -> Result<Opened, NoMemory>
    requires { size ≡ open_size (term_of list.now) }
    ensures code { OnOk result (Emits code.old code.new (get_made (after code.old) at.slot at.next at.stock at.parts at.met (term_of list.now))) }
    ensures met { IfOk result (λ o. o.met ≡ (mark at.met (term_of list.now)).met) }
    ensures behind { IfOk result (λ o. o.behind ≡ at.parts + width (term_of list.now)) }
{
    let mut pairs = Vec::new(alloc);
    let mut rest = list;
    let mut here = at;
    let mut left = size;
    while let Term::Cons(head, tail) = rest {
        let Ok(()) = pairs.push(here) else {
            return Err(NoMemory);
        };
        let first_size = opened_size(head.get())?;
        let inner = open_pair(code, here, left)?;
        let first = open(alloc, code, head.get(), inner, first_size)?;
        here = second(here, first)?;
        left = left - 3 - first_size;
        rest = tail.get();
    }
    let end = open(alloc, code, rest, here, left)?;
    while let Some(pair) = pairs.pop() {
        shut(code, pair)?;
    }
    Ok(end)
}

/// Unifies slots with the parts of a tuple, which stand in slots.
#[cycle(heads)]
fn open_parts(
    alloc: Global,
    code: &mut Emitter,
    terms: &[Term],
    at: Opening,
) -> Result<Opened, NoMemory>
    ensures code { OnOk result (Emits code.old code.new (gets_made (after code.old) at.slot at.next at.stock at.parts at.met (parts_of terms.now))) }
    ensures met { IfOk result (λ o. o.met ≡ (marks at.met (parts_of terms.now)).met) }
    ensures behind { IfOk result (λ o. o.behind ≡ at.parts + widths (parts_of terms.now)) }
{
    let mut here = at;
    for term in terms {
        let size = opened_size(term)?;
        let opened = open(alloc, code, term, here, size)?;
        here = next(here, opened)?;
    }
    Ok(Opened {
        met: here.met,
        behind: here.parts,
    })
}
