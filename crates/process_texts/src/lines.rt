//! The lines of processes.
ghost use Rattle.std.specs.Prelude.{◌≡◌, ◌+◌, ◌-◌, ◌<◌, ◌≤◌, ◌++◌, ℕ, [], Some, OnOk, MatchOption, length, map};
ghost use Rattle.fcp_model.specs.Translation.{program_of};
ghost use Rattle.heap_words.specs.Trails.{KeepsLoads};
ghost use Rattle.heap_words.specs.declared.cell.Cell.TheVariants.{Status};
ghost use Rattle.heap_words.specs.declared.cell.Stand.{Stand};
ghost use Rattle.word_states.specs.Words.{IsIn};
ghost use Rattle.ro_unify.specs.Occurs.{Each};
ghost use Rattle.process_texts.specs.Lines.{ProcessLine, ProcessLines};
ghost use Rattle.process_texts.specs.Texts.{stand_text};

use crate::goals::push_goal;
use crate::items::ProcessLists;
use crate::reading::cell_at;
use entry_lines::{process_name, waiting_set};
use fcp_model::log_lines::push_places;
use fcp_model::spelling::{push_bytes, push_process};
use fcp_model::{Loaded, Names, NoMemory, Place};
use heap_words::{Cell, Stand, Trail, Words};

/// How a process stands whose status is in a cell, where it is a status.
fn stand_in(cell: Option<Cell>) -> Option<Stand>
    ensures { MatchOption result ((d : Stand) → cell ≡ Some (Status d) → ⊥) (λ d. cell ≡ Some (Status d)) }
{
    match cell {
        Some(Cell::Status(stand)) => Some(stand),
        _ => None,
    }
}

/// Puts how a process stands after a text, with the places on which it waits.
fn push_stand(out: &mut Vec<u8>, stand: Stand, places: &[Place]) -> Result<(), NoMemory>
    ensures { OnOk result (out.new.items ≡ out.old.items ++ stand_text stand places.now) }
{
    match stand {
        Stand::Ready => push_bytes(out, b" ready"),
        Stand::Waiting(_) => {
            push_bytes(out, b" waits")?;
            push_places(out, places)
        }
        Stand::Done => push_bytes(out, b" done"),
    }
}

/// Puts the line of the process at an address after a text: its name, how it stands, with the places on which it waits, by age, and its
/// goal, by value, each argument cut after 1,024 nodes. `waits` are the addresses of those places, in any order; where the process does
/// not wait, they say nothing. What is loaded is kept on the trail, of which all else is dropped before. The only error is want of
/// memory, after which a front of the line may stand there.
pub fn push_process_line<W: Words>(
    lists: &mut ProcessLists,
    trail: &mut Trail,
    words: &mut W,
    names: &Names,
    loaded: &Loaded,
    out: &mut Vec<u8>,
    process: u32,
    waits: &[u32],
) -> Result<(), NoMemory>
    requires sound { W.sound words.old }
    requires store { W.addresses words.old ≤ 4000000000 }
    requires process { W.knows words.old process }
    requires places { (a : ℕ) → IsIn a waits.now → (0 < a) × W.knows words.old (a - 1) }
    ensures between { W.later words.old words.new }
    ensures loaded { OnOk result (KeepsLoads W.sound W.had W.leads W.later W.gave [] [] words.old trail.new.kept trail.new.binds
        words.new) }
    ensures line { OnOk result (ProcessLine names.now (program_of loaded.now) trail.new.kept process waits.now out.old.items
        out.new.items) }
{
    trail.clear();
    let status = cell_at(trail, words, process)?;
    let Some(stand) = stand_in(status) else {
        return Ok(());
    };
    let name = process_name(trail, words, process)?;
    waiting_set(&mut lists.places, trail, words, waits)?;
    push_process(out, name)?;
    push_stand(out, stand, lists.places.as_slice())?;
    push_bytes(out, b": ")?;
    push_goal(lists, trail, words, names, loaded, out, process)?;
    push_bytes(out, b"\n")?;
    Ok(())
}

/// Puts the lines of the processes at some addresses after a text, one after another. `waits` are the addresses of the places on which
/// each of them waits, as `push_process_line` takes them. The trail has what was loaded for the last one. The only error is want of
/// memory, after which a front of the lines may stand there.
pub fn push_process_lines<W: Words>(
    lists: &mut ProcessLists,
    trail: &mut Trail,
    words: &mut W,
    names: &Names,
    loaded: &Loaded,
    out: &mut Vec<u8>,
    processes: &[u32],
    waits: &[Vec<u32>],
) -> Result<(), NoMemory>
    requires sound { W.sound words.old }
    requires store { W.addresses words.old ≤ 4000000000 }
    requires processes { (q : ℕ) → IsIn q processes.now → W.knows words.old q }
    requires places { Each (λ v. (a : ℕ) → IsIn a v.items → (0 < a) × W.knows words.old (a - 1)) waits.now }
    requires each { length waits.now ≡ length processes.now }
    ensures between { W.later words.old words.new }
    ensures lines { OnOk result (ProcessLines names.now (program_of loaded.now) (W.gave words.old words.new) processes.now
        (map (λ v. v.items) waits.now) out.old.items out.new.items) }
{
    for (at, process) in processes.iter().enumerate() {
        push_process_line(
            lists,
            trail,
            words,
            names,
            loaded,
            out,
            *process,
            waits[at].as_slice(),
        )?;
    }
    Ok(())
}
