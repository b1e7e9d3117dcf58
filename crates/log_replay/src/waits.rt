//! The places on which processes wait. No word of a process says them, so it is decided again.
ghost use Rattle.std.specs.Prelude.{◌≡◌, ℕ, List, Some, IfOk};
ghost use Rattle.std.specs.List.{AllZip};
ghost use Rattle.heap_words.specs.Cells.{decoded};
ghost use Rattle.word_states.specs.Words.{IsIn};
ghost use Rattle.commit_engine.specs.PlainHalls.{IsSame};
ghost use Rattle.log_replay.specs.Replays.{IsAtRest};
ghost use Rattle.log_replay.specs.Waits.{waits, is_waiting, IsProcess, AreTold};

use commit_engine::PlainHall;
use fcp_model::NoMemory;
use heap_words::{Cell, Stand, Words, decode};
use machine_code::Code;
use std::alloc::Global;
use trial_machine::{Machine, Trial};

/// Whether a process waits that stands so.
fn waits(stand: Stand) -> bool
    ensures { result ≡ waits stand }
{
    match stand {
        Stand::Waiting(_) => true,
        _ => false,
    }
}

/// Whether a word is the status of a process that waits.
fn is_waiting(word: u64) -> bool
    ensures { result ≡ is_waiting (decoded word) }
{
    match decode(word) {
        Some(Cell::Status(stand)) => waits(stand),
        _ => false,
    }
}

/// The same addresses in a list of their own.
fn copied(alloc: Global, addresses: &[u32]) -> Result<Vec<u32>, NoMemory>
    ensures { IfOk result (λ v. v.items ≡ addresses.now) }
{
    match addresses.iter().copied().collect(alloc) {
        Ok(list) => Ok(list),
        Err(_) => Err(NoMemory),
    }
}

/// Decides the process at an address again. The answer has the addresses of the places for which it waits, and none where it does not.
fn tried_places(
    alloc: Global,
    hall: &mut PlainHall,
    machine: &mut Machine,
    code: &Code,
    process: u32,
) -> Result<Vec<u32>, NoMemory>
    requires rest { IsAtRest hall.old }
    requires process { IsProcess hall.old.words.items process }
    ensures same { IsSame hall.old hall.new }
    ensures told { IfOk result (λ v. AreTold code.now hall.old.words.items process v.items) }
{
    match machine.trial(code, process, hall)? {
        Trial::Wait => copied(alloc, machine.places()),
        _ => Ok(Vec::new(alloc)),
    }
}

/// The addresses of the places on which the process at an address waits.
fn places_of(
    alloc: Global,
    hall: &mut PlainHall,
    machine: &mut Machine,
    code: &Code,
    process: u32,
) -> Result<Vec<u32>, NoMemory>
    requires rest { IsAtRest hall.old }
    requires process { IsProcess hall.old.words.items process }
    ensures same { IsSame hall.old hall.new }
    ensures told { IfOk result (λ v. AreTold code.now hall.old.words.items process v.items) }
{
    let status = hall.load(process);
    if is_waiting(status) {
        tried_places(alloc, hall, machine, code, process)
    } else {
        Ok(Vec::new(alloc))
    }
}

/// Those of each of the processes at some addresses.
pub(crate) fn all_places(
    alloc: Global,
    hall: &mut PlainHall,
    machine: &mut Machine,
    code: &Code,
    processes: &[u32],
) -> Result<Vec<Vec<u32>>, NoMemory>
    requires rest { IsAtRest hall.old }
    requires processes { (q : ℕ) → IsIn q processes.now → IsProcess hall.old.words.items q }
    ensures same { IsSame hall.old hall.new }
    ensures told { IfOk result (λ vs. AllZip (λ q v. AreTold code.now hall.old.words.items q v.items) processes.now vs.items) }
{
    let mut all = Vec::new(alloc);
    for &process in processes {
        let places = places_of(alloc, hall, machine, code, process)?;
        if all.push(places).is_err() {
            return Err(NoMemory);
        }
    }
    Ok(all)
}
