//! What a commit bound, and whom it woke.
ghost use Rattle.std.specs.Prelude.{◌≡◌, ℕ, ◌+◌, ◌-◌, ◌*◌, ◌<◌, OnOk};
ghost use Rattle.fcp_model.specs.LogText.{processes_text, woken_text};
ghost use Rattle.heap_words.specs.Trails.{KeepsLoads};
ghost use Rattle.word_states.specs.Words.{IsIn};
ghost use Rattle.entry_lines.specs.Reading.{ReadsStore};
ghost use Rattle.entry_lines.specs.Texts.{AddsBound, AddsAllBound, AddsProcesses};

use crate::names::{place_name, process_name};
use crate::values::push_value;
use fcp_model::spelling::{push_bytes, push_place, push_process};
use fcp_model::{Names, NoMemory};
use heap_words::{Trail, Words};
use word_texts::TextLists;

/// Puts ` _a.b=TERM` for the place whose word is at an address, by value and cut after 64 nodes.
fn push_bound<W: Words>(
    lists: &mut TextLists,
    trail: &mut Trail,
    words: &mut W,
    names: &Names,
    out: &mut Vec<u8>,
    place: u32,
) -> Result<(), NoMemory>
    requires reads { ReadsStore W.sound W.had W.leads W.own W.addresses trail.old.kept trail.old.binds words.old }
    requires known { (0 < place) × W.knows words.old place × W.knows words.old (place - 1) }
    ensures between { W.later words.old words.new }
    ensures loaded { OnOk result (KeepsLoads W.sound W.had W.leads W.later W.gave trail.old.kept trail.old.binds words.old
        trail.new.kept trail.new.binds words.new) }
    ensures binds { trail.new.binds ≡ trail.old.binds }
    ensures text { OnOk result (AddsBound trail.new.kept names.now place out.old.items out.new.items) }
{
    let name = place_name(trail, words, place)?;
    push_bytes(out, b" ")?;
    push_place(out, name)?;
    push_bytes(out, b"=")?;
    push_value(lists, trail, words, names, out, place, 64)?;
    Ok(())
}

/// Puts such a text for each of some places.
pub(crate) fn push_all_bound<W: Words>(
    lists: &mut TextLists,
    trail: &mut Trail,
    words: &mut W,
    names: &Names,
    out: &mut Vec<u8>,
    places: &[u32],
) -> Result<(), NoMemory>
    requires reads { ReadsStore W.sound W.had W.leads W.own W.addresses trail.old.kept trail.old.binds words.old }
    requires known { (a : ℕ) → IsIn a places.now → (0 < a) × W.knows words.old a × W.knows words.old (a - 1) }
    ensures between { W.later words.old words.new }
    ensures loaded { OnOk result (KeepsLoads W.sound W.had W.leads W.later W.gave trail.old.kept trail.old.binds words.old
        trail.new.kept trail.new.binds words.new) }
    ensures binds { trail.new.binds ≡ trail.old.binds }
    ensures text { OnOk result (AddsAllBound trail.new.kept names.now places.now out.old.items out.new.items) }
{
    for &place in places {
        push_bound(lists, trail, words, names, out, place)?;
    }
    Ok(())
}

/// Puts the names of the processes at some addresses, each after a space.
fn push_process_names<W: Words>(
    trail: &mut Trail,
    words: &mut W,
    out: &mut Vec<u8>,
    processes: &[u32],
) -> Result<(), NoMemory>
    requires reads { ReadsStore W.sound W.had W.leads W.own W.addresses trail.old.kept trail.old.binds words.old }
    requires known { (q : ℕ) → IsIn q processes.now → (q + 1 < 4294967296) × W.knows words.old (q + 1) }
    ensures between { W.later words.old words.new }
    ensures loaded { OnOk result (KeepsLoads W.sound W.had W.leads W.later W.gave trail.old.kept trail.old.binds words.old
        trail.new.kept trail.new.binds words.new) }
    ensures binds { trail.new.binds ≡ trail.old.binds }
    ensures text { OnOk result (AddsProcesses trail.new.kept processes_text processes.now out.old.items out.new.items) }
{
    for &process in processes {
        let name = process_name(trail, words, process)?;
        push_bytes(out, b" ")?;
        push_process(out, name)?;
    }
    Ok(())
}

/// Puts ` wakes` and the names of the processes at some addresses, where there are any.
pub(crate) fn push_woken<W: Words>(
    trail: &mut Trail,
    words: &mut W,
    out: &mut Vec<u8>,
    processes: &[u32],
) -> Result<(), NoMemory>
    requires reads { ReadsStore W.sound W.had W.leads W.own W.addresses trail.old.kept trail.old.binds words.old }
    requires known { (q : ℕ) → IsIn q processes.now → (q + 1 < 4294967296) × W.knows words.old (q + 1) }
    ensures between { W.later words.old words.new }
    ensures loaded { OnOk result (KeepsLoads W.sound W.had W.leads W.later W.gave trail.old.kept trail.old.binds words.old
        trail.new.kept trail.new.binds words.new) }
    ensures binds { trail.new.binds ≡ trail.old.binds }
    ensures text { OnOk result (AddsProcesses trail.new.kept woken_text processes.now out.old.items out.new.items) }
{
    if processes.is_empty() {
        return Ok(());
    }
    push_bytes(out, b" wakes")?;
    push_process_names(trail, words, out, processes)?;
    Ok(())
}
