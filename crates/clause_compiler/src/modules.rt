//! Compiling a module.
ghost use Rattle.std.specs.Prelude.{IfOk};
ghost use Rattle.fcp_model.specs.Translation.{program_of};
ghost use Rattle.machine_code.specs.Compiling.{compiled};
ghost use Rattle.machine_code.specs.Correct.{MeansSource, NamesSource};

use crate::procedures::procedure_code;
use crate::sizes::clause_sizes;
use fcp_model::{Loaded, NoMemory, TRUE_PROCEDURE};
use head_code::Emitter;
use machine_code::{Code, Procedure, slots_named};
use std::alloc::Global;

/// Compiles a module. What the code gives for a call, over each map of bindings, is what the source clauses decide.
/// There is no memory for code of 2^32 instructions or slots.
pub fn compile(alloc: Global, loaded: &Loaded) -> Result<Code, NoMemory>
    ensures means { IfOk result (λ code. MeansSource (program_of loaded.now) (compiled code)) }
    ensures names { IfOk result (λ code. NamesSource (program_of loaded.now) (compiled code)) }
{
    if loaded.procedures() >= TRUE_PROCEDURE {
        return Err(NoMemory);
    }
    let mut code = Emitter::new(alloc);
    let mut procedures = Vec::new(alloc);
    for number in 0..loaded.procedures() {
        let procedure = Procedure {
            name: loaded.name(number),
            first: code.position()?,
            clauses: clause_sizes(alloc, loaded, number)?,
        };
        let Ok(()) = procedures.push(procedure) else {
            return Err(NoMemory);
        };
        procedure_code(alloc, &mut code, loaded, number)?;
    }
    code.position()?;
    let slots = slots_named(code.instrs.as_slice(), code.steps.as_slice())?;
    let Emitter {
        instrs,
        steps,
        smalls,
    } = code;
    Ok(Code::of(instrs, steps, smalls, procedures, slots))
}
