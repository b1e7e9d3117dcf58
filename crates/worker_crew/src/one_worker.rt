//! The run of one worker.
ghost use Rattle.std.specs.Prelude.{IfOk};
ghost use Rattle.worker_crew.specs.declared.task.Task.{Task};
ghost use Rattle.worker_crew.specs.Tasks.{IsTask, IsAlone, HasLog};
ghost use Rattle.worker_crew.specs.Reached.{HasEnded};

use crate::engine::{Engine, Ruled};
use crate::starting::start;
use crate::task::{Run, Task};
use fcp_model::{NoMemory, Outcome};
use std::alloc::Global;

/// The run that ended with this outcome where the engine stands.
fn run_of(engine: Engine, outcome: Outcome) -> Run
    ensures run { (t : Task) → IsTask t → HasEnded t engine outcome → IsAlone t result }
    ensures log { (t : Task) → IsTask t → HasEnded t engine outcome → HasLog t result }
{
    fcp_laws::one_worker_runs();
    let Engine { hall, made, .. } = engine;
    Run {
        log: hall.into_log(),
        outcome,
        reached: made,
    }
}

/// The run of one worker of the task: from the goal's first state until a ruling says that it ends. `Err` is want of memory.
pub fn alone(alloc: Global, task: &Task) -> Result<Run, NoMemory>
    requires { IsTask task.now }
    ensures run { IfOk result (IsAlone task.now) }
    ensures log { IfOk result (HasLog task.now) }
{
    let mut engine = start(alloc, task)?;
    loop {
        match engine.rule(alloc, task)? {
            Ruled::Makes | Ruled::Passes => {}
            Ruled::Ends(outcome) => return Ok(run_of(engine, outcome)),
        }
    }
}
