//! The answer to a goal that was loaded for a module: its controls, its run, and the report of the run.
ghost use Rattle.std.specs.Prelude.{◌≤◌, length, IfOk, IfSome, Option};
ghost use Rattle.fcp_model.specs.ClosedPrograms.{IsClosed};
ghost use Rattle.fcp_model.specs.Spelling.{Bytes};
ghost use Rattle.fcp_model.specs.Translation.{program_of};
ghost use Rattle.goal_layout.specs.Goals.{MayBeLaid};
ghost use Rattle.logix_app.specs.Answers.{AnswersRun};
ghost use Rattle.logix_app.specs.Controls.{AreAsked};
ghost use Rattle.logix_app.specs.Loading.{AreLoaded};
ghost use Rattle.logix_app.specs.Parts.{text_of, MayBeAsked, MayBeKept, ReadsAsked};

use crate::Status;
use crate::answer::{Answer, Output};
use crate::lines::control_refusal;
use clause_compiler::compile;
use control_texts::{ControlFault, read_controls};
use fcp_model::{Control, Limits, Loaded, LoadedGoal, Names, NoMemory, Seq, Text};
use run_report::report;
use std::alloc::Global;
use worker_crew::{Task, alone};

/// The controls that a control text asks for, and none without a text.
fn controls_of(alloc: Global, control: &Option<Text>) -> Result<Seq<Control>, ControlFault>
    requires { IfSome control.now (λ text. length text ≤ 65536) }
    ensures reads { ReadsAsked control.now result }
    ensures kept { IfOk result MayBeKept }
{
    match control {
        Some(text) => read_controls(alloc, text.as_str()),
        None => Ok(Seq::empty(alloc)),
    }
}

/// The answer to a goal that was loaded for a module, and that may be laid, with the controls that were read.
fn answer_controlled(
    alloc: Global,
    names: &Names,
    loaded: &Loaded,
    goal: &LoadedGoal,
    limits: Limits,
    controls: &[Control],
) -> Result<Answer, NoMemory>
    requires closed { IsClosed (program_of loaded.now) }
    requires laid { MayBeLaid loaded.now goal.now }
    requires asked { MayBeAsked limits }
    requires kept { MayBeKept controls.now }
    ensures { (file text : Bytes) (control : Option Bytes) → AreLoaded file text loaded.now goal.now.0 names.now
        → AreAsked control controls.now
        → IfOk result (λ a. AnswersRun limits control file text a.status (text_of a.output)) }
{
    let code = compile(alloc, loaded)?;
    let task = Task {
        loaded,
        goal,
        code: &code,
        limits,
        controls,
    };
    let run = alone(alloc, &task)?;
    let text = report(alloc, names, &task, &run)?;
    Ok(Answer {
        status: Status::Ended(run.outcome),
        output: Output::Text(text),
    })
}

/// The answer to a goal that was loaded for a module, and that may be laid, with a control text where one is given.
pub fn answer_loaded(
    alloc: Global,
    names: &Names,
    loaded: &Loaded,
    goal: &LoadedGoal,
    limits: Limits,
    control: &Option<Text>,
) -> Result<Answer, NoMemory>
    requires closed { IsClosed (program_of loaded.now) }
    requires laid { MayBeLaid loaded.now goal.now }
    requires asked { MayBeAsked limits }
    requires control { IfSome control.now (λ text. length text ≤ 65536) }
    ensures { (file text : Bytes) → AreLoaded file text loaded.now goal.now.0 names.now
        → IfOk result (λ a. AnswersRun limits control.now file text a.status (text_of a.output)) }
{
    match controls_of(alloc, control) {
        Ok(controls) => {
            answer_controlled(alloc, names, loaded, goal, limits, controls.as_slice())
        }
        Err(fault) => control_refusal(alloc, fault),
    }
}
