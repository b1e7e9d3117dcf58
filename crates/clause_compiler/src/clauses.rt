//! Code for a clause.
ghost use Rattle.std.specs.Prelude.{OnOk};
ghost use Rattle.clause_compiler.specs.ClauseCode.{clause_code, clause_in};
ghost use Rattle.head_code.specs.Emitting.{Emits, after};

use crate::bodies::body;
use crate::guards::guard;
use fcp_model::{Clause, Loaded, NoMemory};
use head_code::{Emitter, head};
use machine_code::Instr;
use std::alloc::Global;

/// The code of a procedure's clause of a number: its head, its guard and its body, with the goal's arguments in the first
/// slots. A try that does not succeed goes on after it.
pub fn clause_code(
    alloc: Global,
    code: &mut Emitter,
    loaded: &Loaded,
    clause: &Clause,
    number: u32,
) -> Result<(), NoMemory>
    ensures { OnOk result (Emits code.old code.new (clause_code (after code.old) number (clause_in loaded.now clause.now))) }
{
    let Ok(base) = u32::try_from(clause.args.len()) else {
        return Err(NoMemory);
    };
    let start = code.instrs.len();
    code.emit(Instr::Try {
        clause: number,
        next: 0,
    })?;
    head(alloc, code, clause.args.as_slice(), base)?;
    guard(alloc, code, clause.guard.as_slice(), base)?;
    body(alloc, code, loaded, clause.body.as_slice(), base)?;
    code.emit(Instr::Commit)?;
    let next = code.position()?;
    code.patch(
        start,
        Instr::Try {
            clause: number,
            next,
        },
    );
    Ok(())
}
