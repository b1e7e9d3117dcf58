//! The answers to the texts of a module and a goal.
ghost use Rattle.std.specs.Prelude.{◌≡◌, ◌≤◌, length, IfOk, IfSome};
ghost use Rattle.fcp_model.specs.NameList.{reserved_names};
ghost use Rattle.fcp_model.specs.Spelling.{Bytes};
ghost use Rattle.goal_layout.specs.Goals.{MayBeLaid};
ghost use Rattle.logix_app.specs.Answers.{AnswersRun, AnswersShow};
ghost use Rattle.logix_app.specs.Loading.{IsLoadedModule};
ghost use Rattle.logix_app.specs.Parts.{text_of, IsOfSomeText, LoadsText, LoadsGoalText, MayBeAsked};

use crate::Status;
use crate::answer::{Answer, Output};
use crate::lines::{goal_refusal, module_refusal};
use crate::running::answer_loaded;
use fcp_loader::{load, load_goal};
use fcp_model::{Limits, Loaded, LoadedGoal, Names, NoMemory, Refused, Text};
use fcp_reader::{read_goal, read_module};
use std::alloc::Global;

/// The module of a text, or its first fault. The strings before are the reserved ones.
fn load_text(alloc: Global, file: &[u8], names: &mut Names) -> Result<Loaded, Refused>
    requires few { length file.now ≤ 1048576 }
    requires fresh { names.old ≡ reserved_names }
    ensures loads { LoadsText file.now names.new result }
{
    match read_module(alloc, file, names) {
        Ok(module) => load(alloc, module),
        Err(refused) => Err(refused),
    }
}

/// The goal of a text for a module that was loaded from some text, or its first fault.
fn load_goal_text(
    alloc: Global,
    loaded: &Loaded,
    goal: &[u8],
    names: &mut Names,
) -> Result<LoadedGoal, Refused>
    requires short { length goal.now ≤ 1048576 }
    requires of_text { IsOfSomeText loaded.now names.old }
    ensures loads { LoadsGoalText loaded.now names.old goal.now names.new result }
    ensures laid { IfOk result (MayBeLaid loaded.now) }
{
    layable_goals::goals_of_texts_may_be_laid();
    match read_goal(alloc, goal, names) {
        Ok(goal) => load_goal(alloc, loaded, goal),
        Err(refused) => Err(refused),
    }
}

/// The answer to the text of a goal for a module that was loaded from some text.
fn answer_goal(
    alloc: Global,
    names: Names,
    loaded: &Loaded,
    goal: &[u8],
    limits: Limits,
    control: &Option<Text>,
) -> Result<Answer, NoMemory>
    requires short { length goal.now ≤ 1048576 }
    requires of_text { IsOfSomeText loaded.now names }
    requires asked { MayBeAsked limits }
    requires control { IfSome control.now (λ text. length text ≤ 65536) }
    ensures { (file : Bytes) → IsLoadedModule file loaded.now names
        → IfOk result (λ a. AnswersRun limits control.now file goal.now a.status (text_of a.output)) }
{
    program_laws::texts_are_closed();
    let mut names = names;
    match load_goal_text(alloc, loaded, goal, &mut names) {
        Ok(goal) => answer_loaded(alloc, &names, loaded, &goal, limits, control),
        Err(refused) => goal_refusal(alloc, refused),
    }
}

/// The answer to the texts of a file and a goal that is to be run over it within limits.
pub fn answer_run(
    alloc: Global,
    file: &[u8],
    goal: &[u8],
    limits: Limits,
    control: &Option<Text>,
) -> Result<Answer, NoMemory>
    requires file { length file.now ≤ 1048576 }
    requires goal { length goal.now ≤ 1048576 }
    requires asked { MayBeAsked limits }
    requires control { IfSome control.now (λ text. length text ≤ 65536) }
    ensures { IfOk result (λ a. AnswersRun limits control.now file.now goal.now a.status (text_of a.output)) }
{
    let mut names = Names::for_text(alloc, file)?;
    match load_text(alloc, file, &mut names) {
        Ok(loaded) => answer_goal(alloc, names, &loaded, goal, limits, control),
        Err(refused) => module_refusal(alloc, refused),
    }
}

/// The answer to the text of a file that is to be shown.
pub fn answer_show(alloc: Global, file: &[u8]) -> Result<Answer, NoMemory>
    requires { length file.now ≤ 1048576 }
    ensures { IfOk result (λ a. AnswersShow file.now a.status (text_of a.output)) }
{
    let mut names = Names::for_text(alloc, file)?;
    match load_text(alloc, file, &mut names) {
        Ok(loaded) => Ok(Answer {
            status: Status::Shown,
            output: Output::Module(names, loaded),
        }),
        Err(refused) => module_refusal(alloc, refused),
    }
}
