//! Goals of texts, prepared for trials.
ghost use Rattle.std.specs.Prelude.{◌≤◌, IfOk};
ghost use Rattle.trial_rows.specs.Prepared.{IsPrepared};

use laid_texts::{LaidGoal, compile_text, lay_text};
use machine_code::Code;
use std::alloc::Global;
use std::test::Fail;
use trial_machine::{Machine, Trial};

/// The most bytes of a text.
const MOST_BYTES: usize = 1_048_576;

/// The code of a module's text.
pub(crate) fn code_of(alloc: Global, file: &str) -> Result<Code, Fail> {
    let file = file.as_bytes();
    if file.len() > MOST_BYTES {
        return Err("a long text".into());
    }
    Ok(compile_text(alloc, file)?)
}

/// A goal of a module in a heap of so many pages.
pub(crate) fn prepare(alloc: Global, file: &str, goal: &str, pages: u32) -> Result<LaidGoal, Fail>
    requires { pages ≤ 3906250 }
    ensures { IfOk result IsPrepared }
{
    let file = file.as_bytes();
    let goal = goal.as_bytes();
    if file.len() > MOST_BYTES || goal.len() > MOST_BYTES {
        return Err("a long text".into());
    }
    match lay_text(alloc, file, goal, pages)? {
        Some(laid) => Ok(laid),
        None => Err("no room".into()),
    }
}

/// How code decides the first process of a goal of a module, in a heap of so many pages.
pub(crate) fn decide(
    alloc: Global,
    machine: &mut Machine,
    code: &Code,
    file: &str,
    goal: &str,
    pages: u32,
) -> Result<Trial, Fail>
    requires { pages ≤ 3906250 }
{
    let mut laid = prepare(alloc, file, goal, pages)?;
    Ok(machine.trial(code, laid.process, &mut laid.heap)?)
}
