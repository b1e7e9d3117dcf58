//! Code for a procedure.
ghost use Rattle.std.specs.Prelude.{length, ◌<◌, OnOk};
ghost use Rattle.fcp_model.specs.ProcedureNames.{procedure_names};
ghost use Rattle.fcp_model.specs.Translation.{program_of};
ghost use Rattle.clause_compiler.specs.ClauseCode.{clauses_code, clauses_in};
ghost use Rattle.head_code.specs.Emitting.{Emits, after};

use crate::clauses::clause_code;
use fcp_model::{Loaded, NoMemory};
use head_code::{Emitter, up};
use machine_code::Instr;
use std::alloc::Global;

/// A position at which no instruction stands.
const NOWHERE: u32 = 4294967295;

/// The code of a procedure: its clauses in the order of the text, and then the end of the trial.
pub fn procedure_code(
    alloc: Global,
    code: &mut Emitter,
    loaded: &Loaded,
    procedure: u32,
) -> Result<(), NoMemory>
    requires { procedure < length (procedure_names loaded.now.clauses) }
    ensures { OnOk result (Emits code.old code.new (clauses_code (after code.old) 1 (clauses_in (program_of loaded.now) procedure))) }
{
    let clauses = loaded.module().clauses.as_slice();
    let places = loaded.clauses(procedure);
    let mut number = 1;
    for place in places {
        clause_code(alloc, code, loaded, &clauses[*place as usize], number)?;
        number = up(number, 1)?;
    }
    code.emit(Instr::Jump { to: NOWHERE })?;
    Ok(())
}
