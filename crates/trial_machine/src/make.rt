//! The making of a machine.
ghost use Rattle.std.specs.Prelude.{◌≡◌, [], IfOk};
ghost use Rattle.trial_machine.specs.Goals.{IsIdle};

use crate::machine::Machine;
use crate::places::Places;
use fcp_model::NoMemory;
use guard_tests::TestLists;
use heap_words::Trail;
use ro_unify::WorkLists;
use std::alloc::Global;
use stored_expressions::ExpressionLists;
use try_desk::Desk;

impl Machine {
    /// A machine for any code, with nothing at hand. It has no slots yet: a trial makes those that its code names.
    pub fn make(alloc: Global) -> Result<Machine, NoMemory>
        ensures idle { IfOk result IsIdle }
        ensures kept { IfOk result (λ m. m.trail.kept ≡ []) }
        ensures binds { IfOk result (λ m. m.binds.items ≡ []) }
    {
        Ok(Machine {
            desk: Desk::make(alloc, 0)?,
            trail: Trail::make(alloc)?,
            waits: Places::make(alloc),
            binds: Vec::new(alloc),
            base: 0,
            vars: 0,
            work: WorkLists::make(alloc),
            tests: TestLists::make(alloc),
            numbers: ExpressionLists::make(alloc),
            left: Vec::new(alloc),
            right: Vec::new(alloc),
        })
    }
}
