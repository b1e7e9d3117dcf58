//! The lines of a log whose texts need no bindings, and the lines that end it. Each function puts a text after another one. Its
//! only error is want of memory, after which a front of the text may stand there.
ghost use Rattle.std.specs.Prelude.{◌≡◌, ◌++◌, OnOk};
ghost use Rattle.fcp_model.specs.LogText.{processes_text, places_text, woken_text};
ghost use Rattle.fcp_model.specs.ReportText.{outcome_word};
ghost use Rattle.fcp_model.specs.LogLines.{hang_line, fail_line, end_line, outcome_line};

use crate::spelling::{push_bytes, push_decimal, push_place, push_process};
use crate::{NoMemory, Outcome, Place, Proc};

/// ` wakes` and the names of the woken processes, where there are any.
pub fn push_woken(text: &mut Vec<u8>, woken: &[Proc]) -> Result<(), NoMemory>
    ensures { OnOk result (text.new.items ≡ text.old.items ++ woken_text woken.now) }
{
    if woken.is_empty() {
        return Ok(());
    }
    push_bytes(text, b" wakes")?;
    push_processes(text, woken)
}

/// Names of processes, each after a space.
pub fn push_processes(text: &mut Vec<u8>, processes: &[Proc]) -> Result<(), NoMemory>
    ensures { OnOk result (text.new.items ≡ text.old.items ++ processes_text processes.now) }
{
    for process in processes {
        push_bytes(text, b" ")?;
        push_process(text, *process)?;
    }
    Ok(())
}

/// Names of places, each after a space.
pub fn push_places(text: &mut Vec<u8>, places: &[Place]) -> Result<(), NoMemory>
    ensures { OnOk result (text.new.items ≡ text.old.items ++ places_text places.now) }
{
    for place in places {
        push_bytes(text, b" ")?;
        push_place(text, *place)?;
    }
    Ok(())
}

/// `N hang #a.b` and the waiting set.
pub fn push_hang_line(
    text: &mut Vec<u8>,
    entry: u32,
    process: Proc,
    places: &[Place],
) -> Result<(), NoMemory>
    ensures { OnOk result (text.new.items ≡ text.old.items ++ hang_line entry process places.now) }
{
    push_decimal(text, entry)?;
    push_bytes(text, b" hang ")?;
    push_process(text, process)?;
    push_places(text, places)?;
    push_bytes(text, b"\n")
}

/// `N fail #a.b`.
pub fn push_fail_line(text: &mut Vec<u8>, entry: u32, process: Proc) -> Result<(), NoMemory>
    ensures { OnOk result (text.new.items ≡ text.old.items ++ fail_line entry process) }
{
    push_decimal(text, entry)?;
    push_bytes(text, b" fail ")?;
    push_process(text, process)?;
    push_bytes(text, b"\n")
}

/// `end N`, with the number of the last entry.
pub fn push_end_line(text: &mut Vec<u8>, last: u32) -> Result<(), NoMemory>
    ensures { OnOk result (text.new.items ≡ text.old.items ++ end_line last) }
{
    push_bytes(text, b"end ")?;
    push_decimal(text, last)?;
    push_bytes(text, b"\n")
}

/// `outcome WORD`.
pub fn push_outcome_line(text: &mut Vec<u8>, outcome: Outcome) -> Result<(), NoMemory>
    ensures { OnOk result (text.new.items ≡ text.old.items ++ outcome_line outcome) }
{
    push_bytes(text, b"outcome ")?;
    push_bytes(text, outcome_word(outcome))?;
    push_bytes(text, b"\n")
}

/// The word of an outcome.
fn outcome_word(outcome: Outcome) -> &'static [u8]
    ensures { result.now ≡ outcome_word outcome }
{
    match outcome {
        Outcome::Failed => b"failed",
        Outcome::Aborted => b"aborted",
        Outcome::Held => b"held",
        Outcome::Terminated => b"terminated",
        Outcome::Suspended => b"suspended",
        Outcome::Budget => b"budget",
        Outcome::Full => b"full",
    }
}
