//! Code for the arguments of a head.
ghost use Rattle.std.specs.Prelude.{◌≡◌, ◌+◌, true, [], ◌∷◌, ◌++◌, map, IfOk, OnOk};
ghost use Rattle.fcp_model.specs.HeadPairs.{mark};
ghost use Rattle.fcp_model.specs.Translation.{term_of};
ghost use Rattle.head_code.specs.Emitting.{Emits, after};
ghost use Rattle.head_code.specs.HeadCode.{is_stocked, argument_code, head_code};

use crate::emitter::{Emitter, up};
use crate::heads::{Opening, open, opened_size};
use crate::small_terms::open_small;
use crate::terms::{put, width};
use fcp_model::{NoMemory, Term};
use std::alloc::Global;

/// The greatest width of a head's term that is put only where the goal's side cannot be opened. Such a term's code grows with
/// the square of its width.
pub const MOST_UNMADE: u32 = 16;

/// Unifies a slot with a wide term, which is put before into the slots from `base` on. Answers the greatest
/// variable met so far.
fn stocked(
    alloc: Global,
    code: &mut Emitter,
    term: &Term,
    slot: u32,
    base: u32,
    met: u8,
) -> Result<u8, NoMemory>
    requires { is_stocked (term_of term.now) ≡ true }
    ensures code { OnOk result (Emits code.old code.new (argument_code (after code.old) slot base (mark met (term_of term.now)).item)) }
    ensures met { IfOk result (λ m. m ≡ (mark met (term_of term.now)).met) }
{
    let parts = up(base, 1)?;
    let free = put(alloc, code, term, base, parts)?;
    let size = opened_size(term)?;
    let at = Opening {
        slot,
        next: free,
        stock: base,
        parts,
        met,
    };
    let opened = open(alloc, code, term, at, size)?;
    Ok(opened.met)
}

/// Unifies a slot with an argument of a head. The slots from `base` on are free. Answers the greatest variable met so far.
pub fn argument(
    alloc: Global,
    code: &mut Emitter,
    term: &Term,
    slot: u32,
    base: u32,
    met: u8,
) -> Result<u8, NoMemory>
    ensures code { OnOk result (Emits code.old code.new (argument_code (after code.old) slot base (mark met (term_of term.now)).item)) }
    ensures met { IfOk result (λ m. m ≡ (mark met (term_of term.now)).met) }
{
    if MOST_UNMADE < width(term)? {
        return stocked(alloc, code, term, slot, base, met);
    }
    let last = open_small(alloc, code, term, slot, base, met)?;
    Ok(last)
}

/// Unifies the slots from 0 on with the arguments of a head. The slots from `base` on are free.
pub fn head(alloc: Global, code: &mut Emitter, args: &[Term], base: u32) -> Result<(), NoMemory>
    ensures { OnOk result (Emits code.old code.new (head_code (after code.old) 0 base 0 (map term_of args.now))) }
{
    let mut at = 0;
    let mut met = 0;
    for term in args {
        met = argument(alloc, code, term, at, base, met)?;
        at = up(at, 1)?;
    }
    Ok(())
}
