//! Code for the items of a body.
ghost use Rattle.std.specs.Prelude.{◌≡◌, ◌+◌, ◌&&◌, nat_eq, [], ◌∷◌, length, map, IfOk, OnOk};
ghost use Rattle.std.specs.List.{position_or_len};
ghost use Rattle.machine_code.specs.Instructions.{Spawn};
ghost use Rattle.fcp_model.specs.ProcedureNames.{procedure_names, same_procedure};
ghost use Rattle.fcp_model.specs.Programs.{unifies, assigns};
ghost use Rattle.fcp_model.specs.Translation.{name_with_arity, term_of, expr_of, goal_of, goals_of};
ghost use Rattle.head_code.specs.Emitting.{Emits};
ghost use Rattle.clause_compiler.specs.ClauseCode as spec;

use crate::expressions::put_expr;
use fcp_model::{
    ASSIGN_PROCEDURE, Call, Expr, Item, Loaded, NoMemory, Sym, TRUE_PROCEDURE, Term,
    UNIFY_PROCEDURE,
};
use head_code::{Emitter, put, put_parts, up};
use machine_code::Instr;
use std::alloc::Global;

/// A call of a procedure, of one past the last where the module has none of that name; `true` with no argument is built in.
fn user(
    alloc: Global,
    code: &mut Emitter,
    loaded: &Loaded,
    name: Sym,
    args: &[Term],
    base: u32,
) -> Result<(), NoMemory>
    ensures { OnOk result (Emits code.old code.new (spec.called_code base loaded.now name args.now)) }
{
    let Ok(count) = u8::try_from(args.len()) else {
        return Err(NoMemory);
    };
    if is_true(name, count) {
        return nothing(code, base);
    }
    let procedure = procedure_called(loaded, name, count as u32);
    put_parts(alloc, code, args, base, up(base, count as u32)?)?;
    code.emit(Instr::Spawn {
        procedure,
        first: base,
        parts: count,
    })?;
    Ok(())
}

/// The built-in process `true`.
fn nothing(code: &mut Emitter, base: u32) -> Result<(), NoMemory>
    ensures { OnOk result (Emits code.old code.new (Spawn 4294967293 base 0 ∷ [])) }
{
    code.emit(Instr::Spawn {
        procedure: TRUE_PROCEDURE,
        first: base,
        parts: 0,
    })
}

/// Whether a call is `true` with no argument.
fn is_true(name: Sym, args: u8) -> bool
    ensures { result ≡ (nat_eq name.0 0 && nat_eq args 0) }
{
    name.0 == 0 && args == 0
}

/// The number of a procedure, or one past the last where the module has none of that name.
#[tactic(auto, using(crate::proofs::CalledGoals::found_at, crate::proofs::CalledGoals::found_nowhere))]
fn procedure_called(loaded: &Loaded, name: Sym, arity: u32) -> u32
    ensures { result ≡ position_or_len (same_procedure (name_with_arity name arity)) (procedure_names loaded.now.clauses) }
{
    match loaded.find(name, arity) {
        Some(procedure) => procedure,
        None => loaded.procedures(),
    }
}

/// The built-in process `=`.
fn unify(
    alloc: Global,
    code: &mut Emitter,
    left: &Term,
    right: &Term,
    base: u32,
) -> Result<(), NoMemory>
    ensures { OnOk result (Emits code.old code.new (spec.goal_code base (unifies (term_of left.now) (term_of right.now)))) }
{
    let second = up(base, 1)?;
    let free = up(base, 2)?;
    put(alloc, code, left, base, free)?;
    put(alloc, code, right, second, free)?;
    code.emit(Instr::Spawn {
        procedure: UNIFY_PROCEDURE,
        first: base,
        parts: 2,
    })?;
    Ok(())
}

/// The built-in process `:=`.
fn assign(
    alloc: Global,
    code: &mut Emitter,
    left: &Term,
    right: &Expr,
    base: u32,
) -> Result<(), NoMemory>
    ensures { OnOk result (Emits code.old code.new (spec.goal_code base (assigns (term_of left.now) (expr_of right.now)))) }
{
    let second = up(base, 1)?;
    let free = up(base, 2)?;
    put(alloc, code, left, base, free)?;
    put_expr(alloc, code, right, second, free)?;
    code.emit(Instr::Spawn {
        procedure: ASSIGN_PROCEDURE,
        first: base,
        parts: 2,
    })?;
    Ok(())
}

/// An item of a body. The slots from `base` on are free.
fn goal(
    alloc: Global,
    code: &mut Emitter,
    loaded: &Loaded,
    call: &Call,
    base: u32,
) -> Result<(), NoMemory>
    ensures { OnOk result (Emits code.old code.new (spec.goal_code base (goal_of (procedure_names loaded.now.clauses) call.now))) }
{
    match call {
        Call::User { name, args } => user(alloc, code, loaded, *name, args.as_slice(), base),
        Call::Unify(left, right) => unify(alloc, code, left, right, base),
        Call::Assign(left, right) => assign(alloc, code, left, right, base),
        Call::Same(_, _) => unknown(code, loaded, base),
        Call::NotSame(_, _) => unknown(code, loaded, base),
        Call::Compare(_, _, _) => unknown(code, loaded, base),
    }
}

/// An item that calls nothing.
fn unknown(code: &mut Emitter, loaded: &Loaded, base: u32) -> Result<(), NoMemory>
    ensures { OnOk result (Emits code.old code.new (Spawn (length (procedure_names loaded.now.clauses)) base 0 ∷ [])) }
{
    code.emit(Instr::Spawn {
        procedure: loaded.procedures(),
        first: base,
        parts: 0,
    })
}

/// The items of a body, from the left.
pub fn body(
    alloc: Global,
    code: &mut Emitter,
    loaded: &Loaded,
    items: &[Item],
    base: u32,
) -> Result<(), NoMemory>
    ensures { OnOk result (Emits code.old code.new (spec.body_code base (goals_of (procedure_names loaded.now.clauses) items.now))) }
{
    for item in items {
        goal(alloc, code, loaded, &item.call, base)?;
    }
    Ok(())
}
