//! Trials of a process, repeated and measured.
ghost use Rattle.std.specs.Prelude.{[], IfOk};
ghost use Rattle.heap_words.specs.Heaps.{IsHeap};
ghost use Rattle.safe_tries.specs.Stored.{IsStored};
ghost use Rattle.stored_heaps.specs.Laws.{gives};
ghost use Rattle.trial_machine.specs.Goals.{HasStatus};

use crate::cases::Case;
use anyhow::{Result, bail};
use fcp_model::NoMemory;
use heap_words::{PlainHeap, Words};
use laid_texts::{compile_text, lay_text};
use machine_code::Code;
use std::alloc::Global;
use std::rt::Clock;
use std::time::Instant;
use trial_machine::{Machine, Trial};

/// The most bytes of a text.
const MOST_BYTES: usize = 65_536;

/// So many trials of a process: whether all of them commit.
fn decide_again<W: Words>(
    machine: &mut Machine,
    code: &Code,
    process: u32,
    words: &mut W,
    rounds: u32,
) -> std::result::Result<bool, NoMemory>
    requires stored { IsStored W.addresses W.sound W.had W.shown W.later [] words.old }
    requires process { HasStatus W.had words.old process }
    ensures between { W.later words.old words.new }
{
    let mut commit = true;
    for _ in 0..rounds {
        let trial = machine.trial(code, process, words)?;
        commit = commit && trial == Trial::Commit;
    }
    Ok(commit)
}

/// The heap of a case's goal, and the address of its process.
fn prepare(alloc: Global, case: Case) -> Result<(PlainHeap, u32)>
    ensures heap { IfOk result (λ r. IsHeap r.0.words.items) }
    ensures process { IfOk result (λ r. HasStatus gives r.0 r.1) }
{
    stored_heaps::first_processes_have_a_status();
    let module = case.module().as_bytes();
    let goal = case.goal().as_bytes();
    if module.len() > MOST_BYTES || goal.len() > MOST_BYTES {
        bail!("a long text");
    }
    let Some(laid) = lay_text(alloc, module, goal, 1)? else {
        bail!("no room for the goal");
    };
    Ok((laid.heap, laid.process))
}

/// The code of a case's module.
fn code_of(alloc: Global, case: Case) -> Result<Code> {
    let module = case.module().as_bytes();
    if module.len() > MOST_BYTES {
        bail!("a long text");
    }
    Ok(compile_text(alloc, module)?)
}

/// Prints the nanoseconds since the start, for each of so many trials.
fn print_each<R: Clock + Print>(rt: &R, case: Case, start: Instant, rounds: u32) -> Result<()> {
    let nanos = start.elapsed(rt)?.as_nanos();
    if rounds == 0 {
        return Ok(());
    }
    let tenths = nanos.saturating_mul(10) / u128::from(rounds);
    println!(rt; "{}: {}.{} ns", case.name(), tenths / 10, tenths % 10)?;
    Ok(())
}

/// Prints the nanoseconds of a trial, over so many of them with one machine.
pub(crate) fn print_trials<R: Clock + Print + AllocGlobal>(
    rt: &R,
    case: Case,
    rounds: u32,
) -> Result<()> {
    stored_heaps::heaps_are_stores();
    let code = code_of(rt.alloc(), case)?;
    let (mut heap, process) = prepare(rt.alloc(), case)?;
    let mut machine = Machine::make(rt.alloc())?;
    let start = Instant::now(rt)?;
    let commit = decide_again(&mut machine, &code, process, &mut heap, rounds)?;
    print_each(rt, case, start, rounds)?;
    if !commit {
        bail!("a trial does not commit");
    }
    Ok(())
}
